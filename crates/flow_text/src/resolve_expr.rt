//! Expressions of a sort.
ghost use Rattle.text_parser.specs.Parsed.{Makes};
ghost use Rattle.flow_text.specs.Trees.{expr_of};
ghost use Rattle.flow_text.specs.Resolving.{expression_of};
ghost use Rattle.flow_text.specs.ScopeViews.{sight_parts};
ghost use Rattle.flow_syntax.specs.SyntaxViews.{expr_syntax};

use crate::resolve::resolve;
use crate::visible_names::VisibleNames;
use flow_model::{ExprNode, Sort};
use flow_syntax::Node;
use std::alloc::Global;
use text_parser::TextFault;

/// Returns the expression with its names resolved, where a sort is wanted, or its first fault in text order.
pub(crate) fn resolve_expr(
    alloc: Global,
    visible_names: &VisibleNames,
    expected: Sort,
    expr: &[Node],
) -> Result<Vec<ExprNode>, TextFault>
    ensures { Makes (Unit {0}) (λ v. expr_of v.items) result (expression_of (sight_parts visible_names.now) expected (expr_syntax expr.now)) }
{
    resolve(alloc, visible_names, expected, expr)
}
