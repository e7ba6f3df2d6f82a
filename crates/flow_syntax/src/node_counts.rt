//! Sizes of graphs and of matches.
ghost use Rattle.std.specs.Prelude.{◌≡◌, ◌+◌, length, min};
ghost use Rattle.flow_syntax.specs.Sizes.{total, expr_nodes, cond_node_nodes, statement_nodes, jump_nodes, block_nodes, is_short, all_pass, cond_node_short, statement_short, jump_short, block_short, few_nodes, nodes_with, equation_nodes, equation_short, match_nodes, match_short, nodes_with_match};
ghost use Rattle.flow_syntax.specs.SyntaxViews.{tokens_syntax, expr_syntax, exprs_syntax, cond_node_syntax, cond_syntax, statement_syntax, statements_syntax, jump_syntax, block_syntax, blocks_syntax, equations_syntax, match_syntax};

use crate::written::{Block, CondNode, Equation, Jump, Match, Node, Statement};
use kat_model::{MAX_EXPR_NODES, MAX_TERM_NODES, MAX_TEXT_NODES};
use text_parser::Token;

#[tactic(auto, using(crate::proofs::LastMembers::lengths))]
fn is_short(expr: &[Node]) -> bool
    ensures { result ≡ is_short (expr_syntax expr.now) }
{
    expr.len() as u64 <= MAX_EXPR_NODES
}

#[tactic(auto, using(crate::proofs::Stacked::pushes, crate::proofs::LastMembers::more))]
fn are_all_short(exprs: &[Vec<Node>]) -> bool
    ensures { result ≡ all_pass is_short (exprs_syntax exprs.now) }
{
    let mut short = true;
    for expr in exprs {
        short = is_short(expr) && short;
    }
    short
}

fn is_cond_node_short(node: &CondNode) -> bool
    ensures { result ≡ cond_node_short (cond_node_syntax node.now) }
{
    match node {
        CondNode::Compared(_, left, right) => is_short(left) && is_short(right),
        CondNode::ComparedSigned(_, left, right) => is_short(left) && is_short(right),
        CondNode::Always => true,
        CondNode::Never => true,
        CondNode::Negation => true,
        CondNode::Both => true,
        CondNode::Either => true,
    }
}

#[tactic(auto, using(crate::proofs::Stacked::pushes, crate::proofs::LastMembers::more))]
fn is_cond_short(cond: &[CondNode]) -> bool
    ensures { result ≡ all_pass cond_node_short (cond_syntax cond.now) }
{
    let mut short = true;
    for node in cond {
        short = is_cond_node_short(node) && short;
    }
    short
}

fn is_statement_short(statement: &Statement) -> bool
    ensures { result ≡ statement_short (statement_syntax statement.now) }
{
    match statement {
        Statement::Assign(_, _, exprs) => are_all_short(exprs),
        Statement::Claim(cond) => is_cond_short(cond),
    }
}

#[tactic(auto, using(crate::proofs::Stacked::pushes, crate::proofs::LastMembers::more))]
fn are_statements_short(statements: &[Statement]) -> bool
    ensures { result ≡ all_pass statement_short (statements_syntax statements.now) }
{
    let mut short = true;
    for statement in statements {
        short = is_statement_short(statement) && short;
    }
    short
}

fn is_jump_short(jump: &Jump) -> bool
    ensures { result ≡ jump_short (jump_syntax jump.now) }
{
    match jump {
        Jump::Branch(cond, _, _) => is_cond_short(cond),
        Jump::Return(_, exprs) => are_all_short(exprs),
        Jump::Goto(_) => true,
        Jump::Abort => true,
    }
}

fn is_block_short(block: &Block) -> bool
    ensures { result ≡ block_short (block_syntax block.now) }
{
    are_statements_short(&block.statements) && is_jump_short(&block.jump)
}

#[tactic(auto, using(crate::proofs::Stacked::pushes, crate::proofs::LastMembers::more))]
fn are_short(blocks: &[Block]) -> bool
    ensures { result ≡ all_pass block_short (blocks_syntax blocks.now) }
{
    let mut short = true;
    for block in blocks {
        short = is_block_short(block) && short;
    }
    short
}

// Numbers of nodes are cut off at this number, which is more than any limit.
const MOST: u64 = 1_099_511_627_776;

#[tactic(auto, using(crate::proofs::LastMembers::lengths))]
fn expr_nodes(expr: &[Node]) -> u64
    ensures { result ≡ min (expr_nodes (expr_syntax expr.now)) MOST }
{
    (expr.len() as u64).min(MOST)
}

#[tactic(auto, using(crate::proofs::Stacked::pushes, crate::proofs::LastMembers::more))]
fn exprs_nodes(exprs: &[Vec<Node>]) -> u64
    ensures { result ≡ min (total expr_nodes (exprs_syntax exprs.now)) MOST }
{
    let mut nodes: u64 = 0;
    for expr in exprs {
        nodes = (expr_nodes(expr) + nodes).min(MOST);
    }
    nodes
}

fn sides_nodes(left: &[Node], right: &[Node]) -> u64
    ensures { result ≡ min (1 + (expr_nodes (expr_syntax left.now) + expr_nodes (expr_syntax right.now))) MOST }
{
    (1 + expr_nodes(left) + expr_nodes(right)).min(MOST)
}

fn cond_node_nodes(node: &CondNode) -> u64
    ensures { result ≡ min (cond_node_nodes (cond_node_syntax node.now)) MOST }
{
    match node {
        CondNode::Compared(_, left, right) => sides_nodes(left, right),
        CondNode::ComparedSigned(_, left, right) => sides_nodes(left, right),
        CondNode::Always => 1,
        CondNode::Never => 1,
        CondNode::Negation => 1,
        CondNode::Both => 1,
        CondNode::Either => 1,
    }
}

#[tactic(auto, using(crate::proofs::Stacked::pushes, crate::proofs::LastMembers::more))]
fn cond_nodes(cond: &[CondNode]) -> u64
    ensures { result ≡ min (total cond_node_nodes (cond_syntax cond.now)) MOST }
{
    let mut nodes: u64 = 0;
    for node in cond {
        nodes = (cond_node_nodes(node) + nodes).min(MOST);
    }
    nodes
}

#[tactic(auto, using(crate::proofs::LastMembers::lengths))]
fn assignment_nodes(targets: &[Token], exprs: &[Vec<Node>]) -> u64
    ensures { result ≡ min (length (tokens_syntax targets.now) + total expr_nodes (exprs_syntax exprs.now)) MOST }
{
    ((targets.len() as u64).min(MOST) + exprs_nodes(exprs)).min(MOST)
}

fn statement_nodes(statement: &Statement) -> u64
    ensures { result ≡ min (statement_nodes (statement_syntax statement.now)) MOST }
{
    match statement {
        Statement::Assign(targets, _, exprs) => assignment_nodes(targets, exprs),
        Statement::Claim(cond) => (1 + cond_nodes(cond)).min(MOST),
    }
}

#[tactic(auto, using(crate::proofs::Stacked::pushes, crate::proofs::LastMembers::more))]
fn statements_nodes(statements: &[Statement]) -> u64
    ensures { result ≡ min (total statement_nodes (statements_syntax statements.now)) MOST }
{
    let mut nodes: u64 = 0;
    for statement in statements {
        nodes = (statement_nodes(statement) + nodes).min(MOST);
    }
    nodes
}

fn jump_nodes(jump: &Jump) -> u64
    ensures { result ≡ min (jump_nodes (jump_syntax jump.now)) MOST }
{
    match jump {
        Jump::Branch(cond, _, _) => (1 + cond_nodes(cond)).min(MOST),
        Jump::Return(_, exprs) => (1 + exprs_nodes(exprs)).min(MOST),
        Jump::Goto(_) => 1,
        Jump::Abort => 1,
    }
}

fn block_nodes(block: &Block) -> u64
    ensures { result ≡ min (block_nodes (block_syntax block.now)) MOST }
{
    (1 + statements_nodes(&block.statements) + jump_nodes(&block.jump)).min(MOST)
}

#[tactic(auto, using(crate::proofs::Stacked::pushes, crate::proofs::LastMembers::more))]
fn total_nodes(blocks: &[Block]) -> u64
    ensures { result ≡ min (total block_nodes (blocks_syntax blocks.now)) MOST }
{
    let mut nodes: u64 = 0;
    for block in blocks {
        nodes = (block_nodes(block) + nodes).min(MOST);
    }
    nodes
}

// Returns the number of nodes so far with others, in which each expression is short or not, or `None` if the others or all
// together are too many.
fn few_nodes(short: bool, so_far: u64, nodes: u64) -> Option<u64>
    ensures { result ≡ few_nodes short so_far nodes }
{
    if !short {
        return None;
    }
    if MAX_TERM_NODES < nodes {
        return None;
    }
    let all = so_far.saturating_add(nodes);
    if MAX_TEXT_NODES < all {
        return None;
    }
    Some(all)
}

/// Returns the number of nodes so far with those of another graph, or `None` if the graph or all together are too large.
#[tactic(auto, using(crate::proofs::CappedNodes::few_capped))]
pub fn nodes_with(so_far: u64, blocks: &[Block]) -> Option<u64>
    ensures { result ≡ nodes_with so_far (blocks_syntax blocks.now) }
{
    few_nodes(are_short(blocks), so_far, total_nodes(blocks))
}

#[tactic(auto, using(crate::proofs::Stacked::pushes, crate::proofs::LastMembers::more))]
fn equations_nodes(equations: &[Equation]) -> u64
    ensures { result ≡ min (total equation_nodes (equations_syntax equations.now)) MOST }
{
    let mut nodes: u64 = 0;
    for equation in equations {
        nodes = (1 + expr_nodes(&equation.value) + nodes).min(MOST);
    }
    nodes
}

#[tactic(auto, using(crate::proofs::Stacked::pushes, crate::proofs::LastMembers::more))]
fn are_equations_short(equations: &[Equation]) -> bool
    ensures { result ≡ all_pass equation_short (equations_syntax equations.now) }
{
    let mut short = true;
    for equation in equations {
        short = is_short(&equation.value) && short;
    }
    short
}

fn match_nodes(matched: &Match) -> u64
    ensures { result ≡ min (match_nodes (match_syntax matched.now)) MOST }
{
    match matched {
        Match::SameNames => 1,
        Match::TwoBlocks(blocks) => (1
            + equations_nodes(&blocks.forth)
            + equations_nodes(&blocks.back)
            + equations_nodes(&blocks.keeping)
            + cond_nodes(&blocks.condition)).min(MOST),
    }
}

fn is_match_short(matched: &Match) -> bool
    ensures { result ≡ match_short (match_syntax matched.now) }
{
    match matched {
        Match::SameNames => true,
        Match::TwoBlocks(blocks) => {
            are_equations_short(&blocks.forth)
                && are_equations_short(&blocks.back)
                && are_equations_short(&blocks.keeping)
                && is_cond_short(&blocks.condition)
        }
    }
}

/// Returns the number of nodes so far with those of a match, or `None` if the match or all together are too large.
#[tactic(auto, using(crate::proofs::CappedNodes::few_capped))]
pub fn nodes_with_match(so_far: u64, matched: &Match) -> Option<u64>
    ensures { result ≡ nodes_with_match so_far (match_syntax matched.now) }
{
    few_nodes(is_match_short(matched), so_far, match_nodes(matched))
}
