//! The variables that a match names.
ghost use Rattle.std.specs.Prelude.{◌≡◌, IfOk};
ghost use Rattle.flow_text.specs.MatchViews.{names_parts};
ghost use Rattle.flow_text.specs.Working.AddedNames.{AddsNames, meant_names, token_names, node_names, expression_names, equation_names, equations_names, names_of_sides, cond_node_names, condition_names, match_names};

use crate::meaning::Meaning;
use crate::visible_names::VisibleNames;
use flow_syntax::{BlockMatch, CondNode, Equation, Node};
use kat_model::{NoMemory, append};
use std::alloc::Global;
use text_parser::Token;

/// The part of a match that follows the keyword of the same name.
#[derive(Clone, Copy, PartialEq, Eq)]
pub enum MatchPart {
    Where,
    Back,
    Keeping,
    If,
}

/// A variable that a part of a match names.
#[derive(Clone, Copy, PartialEq, Eq)]
pub struct MatchName {
    /// The number of the variable.
    pub variable: usize,
    pub part: MatchPart,
    /// Whether an equation sets the variable here; otherwise its value is read.
    pub is_set: bool,
    /// The offset of the name in the text, in bytes.
    pub at: usize,
}

// Adds a name with this meaning, if it is that of a variable.
fn push_meant(
    names: &mut Vec<MatchName>,
    part: MatchPart,
    is_set: bool,
    token: &Token,
    meaning: Option<Meaning>,
) -> Result<(), NoMemory>
    ensures { AddsNames result names.old names.new (meant_names part is_set token.now meaning) }
{
    match meaning {
        None => Ok(()),
        Some(meaning) => match meaning {
            Meaning::Variable(variable) => {
                let at = token.at;
                let name = MatchName {
                    variable,
                    part,
                    is_set,
                    at,
                };
                append(names, name)
            }
            Meaning::SortName(_) => Ok(()),
            Meaning::Function(_) => Ok(()),
            Meaning::GraphName(_) => Ok(()),
        },
    }
}

// Adds a name, if it is that of a variable.
fn push_token(
    names: &mut Vec<MatchName>,
    visible: &VisibleNames,
    part: MatchPart,
    is_set: bool,
    token: &Token,
) -> Result<(), NoMemory>
    ensures { AddsNames result names.old names.new (token_names visible.now part is_set token.now) }
{
    let meaning = visible.meaning(token);
    push_meant(names, part, is_set, token, meaning)
}

// Adds the name of a node, if it is a variable.
fn push_node(
    names: &mut Vec<MatchName>,
    visible: &VisibleNames,
    part: MatchPart,
    node: &Node,
) -> Result<(), NoMemory>
    ensures { AddsNames result names.old names.new (node_names visible.now part node.now) }
{
    match node {
        Node::Named(name) => push_token(names, visible, part, false, name),
        Node::Numeral(_) => Ok(()),
        Node::Called(_, _) => Ok(()),
        Node::Converted(_, _) => Ok(()),
        Node::Operation(_) => Ok(()),
    }
}

// Adds the names in an expression, whose nodes are from the last to the first.
fn push_expression(
    names: &mut Vec<MatchName>,
    visible: &VisibleNames,
    part: MatchPart,
    expr: &[Node],
) -> Result<(), NoMemory>
    ensures { AddsNames result names.old names.new (expression_names visible.now part expr.now) }
{
    let mut rest = expr;
    'nodes: while let Some((node, _)) = rest.split_last() {
        push_node(names, visible, part, node)?;
        rest = &rest[..rest.len() - 1];
    }
    Ok(())
}

// Adds the names in an equation: its variable, then those in its expression.
fn push_equation(
    names: &mut Vec<MatchName>,
    visible: &VisibleNames,
    part: MatchPart,
    equation: &Equation,
) -> Result<(), NoMemory>
    ensures { AddsNames result names.old names.new (equation_names visible.now part equation.now) }
{
    push_token(names, visible, part, true, &equation.variable)?;
    push_expression(names, visible, part, &equation.value)?;
    Ok(())
}

// Adds the names in equations, which are from the last to the first.
fn push_equations(
    names: &mut Vec<MatchName>,
    visible: &VisibleNames,
    part: MatchPart,
    equations: &[Equation],
) -> Result<(), NoMemory>
    ensures { AddsNames result names.old names.new (equations_names visible.now part equations.now) }
{
    let mut rest = equations;
    'written: while let Some((equation, _)) = rest.split_last() {
        push_equation(names, visible, part, equation)?;
        rest = &rest[..rest.len() - 1];
    }
    Ok(())
}

// Adds the names in both sides of a comparison.
fn push_sides(
    names: &mut Vec<MatchName>,
    visible: &VisibleNames,
    left: &[Node],
    right: &[Node],
) -> Result<(), NoMemory>
    ensures { AddsNames result names.old names.new (names_of_sides visible.now left.now right.now) }
{
    push_expression(names, visible, MatchPart::If, left)?;
    push_expression(names, visible, MatchPart::If, right)?;
    Ok(())
}

// Adds the names in a node of a condition.
fn push_cond_node(
    names: &mut Vec<MatchName>,
    visible: &VisibleNames,
    node: &CondNode,
) -> Result<(), NoMemory>
    ensures { AddsNames result names.old names.new (cond_node_names visible.now node.now) }
{
    match node {
        CondNode::Compared(_, left, right) => push_sides(names, visible, left, right),
        CondNode::ComparedSigned(_, left, right) => push_sides(names, visible, left, right),
        CondNode::Always => Ok(()),
        CondNode::Never => Ok(()),
        CondNode::Negation => Ok(()),
        CondNode::Both => Ok(()),
        CondNode::Either => Ok(()),
    }
}

// Adds the names in a condition, whose nodes are from the last to the first.
fn push_condition(
    names: &mut Vec<MatchName>,
    visible: &VisibleNames,
    cond: &[CondNode],
) -> Result<(), NoMemory>
    ensures { AddsNames result names.old names.new (condition_names visible.now cond.now) }
{
    let mut rest = cond;
    'nodes: while let Some((node, _)) = rest.split_last() {
        push_cond_node(names, visible, node)?;
        rest = &rest[..rest.len() - 1];
    }
    Ok(())
}

/// Returns the variables that a match names, in the order of the text.
#[tactic(auto, using(crate::proofs::MatchNameSteps::none_before))]
pub(crate) fn names_of_match(
    alloc: Global,
    visible: &VisibleNames,
    written: &BlockMatch,
) -> Result<Vec<MatchName>, NoMemory>
    ensures { IfOk result (λ v. names_parts v.items ≡ match_names visible.now written.now) }
{
    let mut names = Vec::new(alloc);
    push_equations(&mut names, visible, MatchPart::Where, &written.forth)?;
    push_equations(&mut names, visible, MatchPart::Back, &written.back)?;
    push_equations(&mut names, visible, MatchPart::Keeping, &written.keeping)?;
    push_condition(&mut names, visible, &written.condition)?;
    Ok(names)
}
