//! Appends to lists, which are from the last member to the first.
ghost use Rattle.std.specs.Prelude.{◌≡◌, ◌∷◌, OnOk};
ghost use Rattle.text_parser.specs.TokenParts.{parts_of_token};
ghost use Rattle.flow_syntax.specs.SyntaxViews.{tokens_syntax, node_syntax, expr_syntax, exprs_syntax, cond_node_syntax, cond_syntax, block_syntax, blocks_syntax, equation_syntax, equations_syntax};

use crate::written::{Block, CondNode, Equation, Node};
use kat_model::{NoMemory, append};
use text_parser::Token;

#[tactic(auto, using(crate::proofs::Stacked::pushes))]
pub(crate) fn append_token<'a>(
    tokens: &mut Vec<Token<'a>>,
    token: Token<'a>,
) -> Result<(), NoMemory>
    ensures { OnOk result (tokens_syntax tokens.new.items ≡ parts_of_token token.entry ∷ tokens_syntax tokens.old.items) }
{
    append(tokens, token)
}

#[tactic(auto, using(crate::proofs::Stacked::pushes))]
pub(crate) fn append_node<'a>(nodes: &mut Vec<Node<'a>>, node: Node<'a>) -> Result<(), NoMemory>
    ensures { OnOk result (expr_syntax nodes.new.items ≡ node_syntax node.entry ∷ expr_syntax nodes.old.items) }
{
    append(nodes, node)
}

#[tactic(auto, using(crate::proofs::Stacked::pushes))]
pub(crate) fn append_expr<'a>(
    exprs: &mut Vec<Vec<Node<'a>>>,
    expr: Vec<Node<'a>>,
) -> Result<(), NoMemory>
    ensures { OnOk result (exprs_syntax exprs.new.items ≡ expr_syntax expr.entry.items ∷ exprs_syntax exprs.old.items) }
{
    append(exprs, expr)
}

#[tactic(auto, using(crate::proofs::Stacked::pushes))]
pub(crate) fn append_cond_node<'a>(
    nodes: &mut Vec<CondNode<'a>>,
    node: CondNode<'a>,
) -> Result<(), NoMemory>
    ensures { OnOk result (cond_syntax nodes.new.items ≡ cond_node_syntax node.entry ∷ cond_syntax nodes.old.items) }
{
    append(nodes, node)
}

#[tactic(auto, using(crate::proofs::Stacked::pushes))]
pub(crate) fn append_block<'a>(
    blocks: &mut Vec<Block<'a>>,
    block: Block<'a>,
) -> Result<(), NoMemory>
    ensures { OnOk result (blocks_syntax blocks.new.items ≡ block_syntax block.entry ∷ blocks_syntax blocks.old.items) }
{
    append(blocks, block)
}

#[tactic(auto, using(crate::proofs::Stacked::pushes))]
pub(crate) fn append_equation<'a>(
    equations: &mut Vec<Equation<'a>>,
    equation: Equation<'a>,
) -> Result<(), NoMemory>
    ensures { OnOk result (equations_syntax equations.new.items ≡ equation_syntax equation.entry ∷ equations_syntax equations.old.items) }
{
    append(equations, equation)
}
