//! Jumps, blocks and graphs with their names resolved and their sorts checked.
ghost use Rattle.std.specs.Prelude.{◌≡◌, [], Ok, Some, IfOk};
ghost use Rattle.std.specs.BTreeMap.{get_by_text};
ghost use Rattle.std.specs.Option.{option_map};
ghost use Rattle.text_parser.specs.TokenParts.{parts_of_token};
ghost use Rattle.text_parser.specs.Parsed.{Makes};
ghost use Rattle.flow_text.specs.Trees.{jump_of, block_of, graph_of};
ghost use Rattle.flow_text.specs.Checking.{found, block_names, block_or_fault, may_have_block, returned, gone_to, branched, next_block, blocks_after};
ghost use Rattle.flow_text.specs.Checking as checking;
ghost use Rattle.flow_text.specs.ScopeViews.{sight_parts};
ghost use Rattle.flow_syntax.specs.SyntaxViews.{exprs_syntax, cond_syntax, jump_syntax, block_syntax, blocks_syntax};

use crate::check::{check_statements, resolve_all};
use crate::faults::{limit_fault, name_fault, repeat_fault, sort_fault};
use crate::limits::MAX_BLOCKS;
use crate::resolve_cond::resolve_cond;
use crate::visible_names::VisibleNames;
use flow_model::{Jump as CheckedJump, Sort};
use flow_syntax::{Block, CondNode, Jump, Node};
use kat_model::{NoMemory, append};
use std::alloc::Global;
use std::collections::BTreeMap;
use text_parser::{TextFault, Token};

/// The number of the first block with each name.
pub(crate) struct BlockNames {
    pub(crate) numbers: BTreeMap<String, usize>,
}

// Explicit, so that it is proved once and not at each end of each function that owns the names.
impl Drop for BlockNames {
    fn drop(self) {
        let BlockNames { numbers: _numbers } = self;
    }
}

/// Returns the names of blocks.
pub(crate) fn block_names(alloc: Global, blocks: &[Block]) -> Result<BlockNames, NoMemory>
    ensures { IfOk result (λ names. get_by_text names.numbers ≡ found (block_names 0 (blocks_syntax blocks.now))) }
{
    let mut names = BlockNames {
        numbers: BTreeMap::new(alloc),
    };
    let mut number = blocks.len();
    for block in blocks {
        number -= 1;
        let name = String::from_str(alloc, block.name.text)?;
        names.numbers.insert(name, number)?;
    }
    Ok(names)
}

/// Returns the number of the block with this name, if there is one.
pub(crate) fn number_of(names: &BTreeMap<String, usize>, name: &Token) -> Option<usize>
    ensures { result ≡ get_by_text names.now name.now.text.now }
{
    names.get(name.text).copied()
}

/// Returns the number of the block with this name.
pub(crate) fn block_named(names: &BTreeMap<String, usize>, name: &Token) -> Result<usize, TextFault>
    ensures { result ≡ block_or_fault (parts_of_token name.now) (get_by_text names.now name.now.text.now) }
{
    match number_of(names, name) {
        Some(number) => Ok(number),
        None => name_fault(name),
    }
}

// Checks that block `k` has a name of its own and is within the limit.
fn may_have_block(names: &BTreeMap<String, usize>, k: usize, name: &Token) -> Result<(), TextFault>
    ensures { result ≡ may_have_block k (parts_of_token name.now) (get_by_text names.now name.now.text.now) }
{
    match number_of(names, name) {
        None => name_fault(name),
        Some(first) => {
            if first != k {
                return repeat_fault(name);
            }
            if k < MAX_BLOCKS {
                return Ok(());
            }
            limit_fault(name)
        }
    }
}

#[tactic(auto, using(flow_syntax::proofs::NodeLists::exprs_length))]
fn return_of(
    alloc: Global,
    visible_names: &VisibleNames,
    sorts: &[Sort],
    word: &Token,
    exprs: &[Vec<Node>],
) -> Result<CheckedJump, TextFault>
    ensures { Makes (Unit {0}) jump_of result (returned (sight_parts visible_names.now) (Some sorts.now) (parts_of_token word.now) (exprs_syntax exprs.now)) }
{
    if sorts.len() != exprs.len() {
        return sort_fault(word);
    }
    let values = resolve_all(alloc, visible_names, sorts, exprs)?;
    Ok(CheckedJump::Return(values))
}

// `results` are the sorts of the results, once they are known.
fn check_return(
    alloc: Global,
    visible_names: &VisibleNames,
    results: Option<&[Sort]>,
    word: &Token,
    exprs: &[Vec<Node>],
) -> Result<CheckedJump, TextFault>
    ensures { Makes (Unit {0}) jump_of result (returned (sight_parts visible_names.now) (option_map (λ s. s.now) results.entry) (parts_of_token word.now) (exprs_syntax exprs.now)) }
{
    match results {
        None => Ok(CheckedJump::Return(Vec::new(alloc))),
        Some(sorts) => return_of(alloc, visible_names, sorts, word, exprs),
    }
}

fn check_goto(names: &BTreeMap<String, usize>, name: &Token) -> Result<CheckedJump, TextFault>
    ensures { Makes (Unit {0}) jump_of result (gone_to (parts_of_token name.now) (get_by_text names.now name.now.text.now)) }
{
    let block = block_named(names, name)?;
    Ok(CheckedJump::Goto(block))
}

fn check_branch(
    alloc: Global,
    visible_names: &VisibleNames,
    names: &BTreeMap<String, usize>,
    cond: &[CondNode],
    name: &Token,
    other: &Token,
) -> Result<CheckedJump, TextFault>
    ensures { Makes (Unit {0}) jump_of result (branched (sight_parts visible_names.now) (get_by_text names.now) (cond_syntax cond.now) (parts_of_token name.now) (parts_of_token other.now)) }
{
    let cond = resolve_cond(alloc, visible_names, cond)?;
    let block = block_named(names, name)?;
    let other = block_named(names, other)?;
    Ok(CheckedJump::Branch(cond, block, other))
}

fn check_jump(
    alloc: Global,
    visible_names: &VisibleNames,
    results: Option<&[Sort]>,
    names: &BTreeMap<String, usize>,
    jump: &Jump,
) -> Result<CheckedJump, TextFault>
    ensures { Makes (Unit {0}) jump_of result (checking.jump_of (sight_parts visible_names.now) (option_map (λ s. s.now) results.entry) (get_by_text names.now) (jump_syntax jump.now)) }
{
    match jump {
        Jump::Goto(name) => check_goto(names, name),
        Jump::Branch(cond, name, other) => check_branch(
            alloc,
            visible_names,
            names,
            cond,
            name,
            other,
        ),
        Jump::Return(word, exprs) => check_return(alloc, visible_names, results, word, exprs),
        Jump::Abort => Ok(CheckedJump::Abort),
    }
}

fn check_block(
    alloc: Global,
    visible_names: &VisibleNames,
    results: Option<&[Sort]>,
    names: &BTreeMap<String, usize>,
    block: &Block,
) -> Result<flow_model::Block, TextFault>
    ensures { Makes (Unit {0}) block_of result (checking.block_of (sight_parts visible_names.now) (option_map (λ s. s.now) results.entry) (get_by_text names.now) (block_syntax block.now)) }
{
    let statements = check_statements(alloc, visible_names, &block.statements)?;
    let jump = check_jump(alloc, visible_names, results, names, &block.jump)?;
    Ok(flow_model::Block {
        is_cut: block.is_cut,
        statements,
        jump,
    })
}

// Returns block `k` of a graph.
fn next_block(
    alloc: Global,
    visible_names: &VisibleNames,
    results: Option<&[Sort]>,
    names: &BTreeMap<String, usize>,
    k: usize,
    block: &Block,
) -> Result<flow_model::Block, TextFault>
    ensures { Makes (Unit {0}) block_of result (next_block (sight_parts visible_names.now) (option_map (λ s. s.now) results.entry) (get_by_text names.now) k (block_syntax block.now)) }
{
    may_have_block(names, k, &block.name)?;
    check_block(alloc, visible_names, results, names, block)
}

#[tactic(auto, using(flow_syntax::proofs::Stacked::pushes, crate::proofs::GraphSteps::blocks, crate::proofs::LastTaken::last))]
fn check_blocks(
    alloc: Global,
    visible_names: &VisibleNames,
    results: Option<&[Sort]>,
    names: &BTreeMap<String, usize>,
    blocks: &[Block],
) -> Result<Vec<flow_model::Block>, TextFault>
    ensures { Makes (Unit {0}) (λ v. graph_of v.items) result (blocks_after (sight_parts visible_names.now) (option_map (λ s. s.now) results.entry) (get_by_text names.now) [] (blocks_syntax blocks.now)) }
{
    let mut checked = Vec::new(alloc);
    let mut rest = blocks;
    'each: while let Some((block, _)) = rest.split_last() {
        let block = next_block(alloc, visible_names, results, names, checked.len(), block)?;
        append(&mut checked, block)?;
        rest = &rest[..rest.len() - 1];
    }
    Ok(checked)
}

/// Returns the graph of the blocks, or its first fault in text order. The results of a `return` are left out if their
/// sorts are not known.
pub(crate) fn check_graph(
    alloc: Global,
    visible_names: &VisibleNames,
    results: Option<&[Sort]>,
    blocks: &[Block],
) -> Result<Vec<flow_model::Block>, TextFault>
    ensures { Makes (Unit {0}) (λ v. graph_of v.items) result (checking.graph_of (sight_parts visible_names.now) (option_map (λ s. s.now) results.entry) (blocks_syntax blocks.now)) }
{
    let names = block_names(alloc, blocks)?;
    check_blocks(alloc, visible_names, results, &names.numbers, blocks)
}
