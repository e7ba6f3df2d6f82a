//! Ways from a place: runs with forms in place of values, depth first.
ghost use Rattle.std.specs.Prelude.{◌≡◌, ◌<◌, ◌≤◌, Some, true, false, IfOk, IfErr, OnOk, map, slice_index_or};
ghost use Rattle.flow_model.specs.Polish.{graph_of};
ghost use Rattle.flow_ways.specs.CondTrees.{cond_tree};
ghost use Rattle.flow_ways.specs.Ways.{with_test, first_course as course_of_place, ways as ways_of};
ghost use Rattle.flow_ways.specs.Outcomes.{outcome_if, branch_outcome, jump_outcome, block_outcome, outcome_from, target_outcome, all_ways};
ghost use Rattle.flow_ways.specs.CourseTrees.{course_tree, IsGrown};
ghost use Rattle.flow_ways.specs.WayTrees.{way_tree, Adds, HasReason};
ghost use Rattle.flow_ways.specs.declared.limits.TheConstants.{MAX_WAYS};

use crate::condition::FlowCond;
use crate::fault::WayFault;
use crate::found::Found;
use crate::own::initial_forms;
use crate::symbolic_run::{
    SymbolicRun, condition_on, count_facts, count_tests, cut_facts, cut_tests, query,
    run_statements,
};
use crate::way::{Way, copy_forms, count_aborted, end_at_place, end_with_results};
use flow_model::{Block, Jump, Sort};
use kat_model::NoMemory;
use std::alloc::Global;

// What ways are found in: the blocks, the sorts of the variables, and for each block whether it is a place.
#[derive(Clone, Copy)]
struct Setting<'a> {
    alloc: Global,
    blocks: &'a [Block],
    sorts: &'a [Sort],
    places: &'a [bool],
}

fn is_place(places: &[bool], block: usize) -> bool
    ensures { result ≡ slice_index_or places.now block false }
{
    places.get(block).copied().unwrap_or(false)
}

// Finds the ways from a block on a course, through at most `depth` blocks.
#[cycle(ways)]
#[tactic(auto, using(crate::proofs::CourseLists::none_then, crate::proofs::CourseLists::take_own))]
fn ways_from(
    setting: &Setting,
    depth: usize,
    block: usize,
    symbolic_run: &mut SymbolicRun,
    found: &mut Found,
) -> Result<(), WayFault>
    ensures added { OnOk result (Adds (outcome_from setting.now.blocks.now setting.now.sorts.now (λ l. slice_index_or setting.now.places.now l false) depth block (course_tree symbolic_run.old)) found.old found.new) }
    ensures refused { IfErr result (HasReason (outcome_from setting.now.blocks.now setting.now.sorts.now (λ l. slice_index_or setting.now.places.now l false) depth block (course_tree symbolic_run.old)) found.old.count) }
    ensures grown { OnOk result (IsGrown (course_tree symbolic_run.old) (course_tree symbolic_run.new)) }
{
    if depth == 0 {
        return Ok(());
    }
    let blocks = setting.blocks;
    match blocks.get(block) {
        Some(here) => ways_through(setting, depth - 1, here, symbolic_run, found),
        None => Ok(()),
    }
}

// Finds the ways through a block.
#[cycle(ways)]
#[tactic(auto, using(crate::proofs::CourseLists::none_then, crate::proofs::CourseLists::still_first, crate::proofs::FoundWays::large_form, crate::proofs::FoundWays::never_many, crate::proofs::FoundWays::course_stops, crate::proofs::FoundWays::course_goes, crate::proofs::CondForms::no_second))]
fn ways_through(
    setting: &Setting,
    depth: usize,
    block: &Block,
    symbolic_run: &mut SymbolicRun,
    found: &mut Found,
) -> Result<(), WayFault>
    ensures added { OnOk result (Adds (block_outcome setting.now.sorts.now (target_outcome setting.now.blocks.now setting.now.sorts.now (λ l. slice_index_or setting.now.places.now l false) depth) (Some block.now) (course_tree symbolic_run.old)) found.old found.new) }
    ensures refused { IfErr result (HasReason (block_outcome setting.now.sorts.now (target_outcome setting.now.blocks.now setting.now.sorts.now (λ l. slice_index_or setting.now.places.now l false) depth) (Some block.now) (course_tree symbolic_run.old)) found.old.count) }
    ensures grown { OnOk result (IsGrown (course_tree symbolic_run.old) (course_tree symbolic_run.new)) }
{
    let goes = run_statements(
        setting.alloc,
        setting.sorts,
        &block.statements,
        symbolic_run,
    )?;
    if !goes {
        return Ok(());
    }
    ways_of_jump(setting, depth, &block.jump, symbolic_run, found)
}

// Finds the ways from the jump of a block.
#[cycle(ways)]
#[tactic(auto, using(crate::proofs::CourseLists::take_own, crate::proofs::FoundWays::large_form, crate::proofs::FoundWays::never_many, crate::proofs::CondForms::no_second))]
fn ways_of_jump(
    setting: &Setting,
    depth: usize,
    jump: &Jump,
    symbolic_run: &mut SymbolicRun,
    found: &mut Found,
) -> Result<(), WayFault>
    ensures added { OnOk result (Adds (jump_outcome setting.now.sorts.now (target_outcome setting.now.blocks.now setting.now.sorts.now (λ l. slice_index_or setting.now.places.now l false) depth) jump.now (course_tree symbolic_run.old)) found.old found.new) }
    ensures refused { IfErr result (HasReason (jump_outcome setting.now.sorts.now (target_outcome setting.now.blocks.now setting.now.sorts.now (λ l. slice_index_or setting.now.places.now l false) depth) jump.now (course_tree symbolic_run.old)) found.old.count) }
    ensures grown { OnOk result (IsGrown (course_tree symbolic_run.old) (course_tree symbolic_run.new)) }
{
    match jump {
        Jump::Goto(k) => ways_on(setting, depth, *k, symbolic_run, found),
        Jump::Branch(cond, k, l) => {
            let cond = condition_on(setting.alloc, setting.sorts, symbolic_run, cond)?;
            ways_of_branch(setting, depth, cond, *k, *l, symbolic_run, found)
        }
        Jump::Return(values) => {
            end_with_results(setting.alloc, setting.sorts, values, symbolic_run, found)
        }
        Jump::Abort => count_aborted(found),
    }
}

// Finds the ways from a branch: those on which the condition holds before those on which it does not.
#[cycle(ways)]
#[tactic(auto, using(crate::proofs::CourseLists::then_more, crate::proofs::CondForms::no_second))]
fn ways_of_branch(
    setting: &Setting,
    depth: usize,
    cond: FlowCond,
    block: usize,
    other: usize,
    symbolic_run: &mut SymbolicRun,
    found: &mut Found,
) -> Result<(), WayFault>
    ensures added { OnOk result (Adds (branch_outcome (course_tree symbolic_run.old) (cond_tree cond) (target_outcome setting.now.blocks.now setting.now.sorts.now (λ l. slice_index_or setting.now.places.now l false) depth block) (target_outcome setting.now.blocks.now setting.now.sorts.now (λ l. slice_index_or setting.now.places.now l false) depth other)) found.old found.new) }
    ensures refused { IfErr result (HasReason (branch_outcome (course_tree symbolic_run.old) (cond_tree cond) (target_outcome setting.now.blocks.now setting.now.sorts.now (λ l. slice_index_or setting.now.places.now l false) depth block) (target_outcome setting.now.blocks.now setting.now.sorts.now (λ l. slice_index_or setting.now.places.now l false) depth other)) found.old.count) }
    ensures grown { OnOk result (IsGrown (course_tree symbolic_run.old) (course_tree symbolic_run.new)) }
{
    let copy = cond.copy(setting.alloc)?;
    let opposite = copy.opposite(setting.alloc)?;
    ways_aside(setting, depth, cond, block, symbolic_run, found)?;
    ways_under(setting, depth, opposite, other, symbolic_run, found)
}

// Finds the ways on which a condition holds, and then restores the course.
#[cycle(ways)]
fn ways_aside(
    setting: &Setting,
    depth: usize,
    cond: FlowCond,
    block: usize,
    symbolic_run: &mut SymbolicRun,
    found: &mut Found,
) -> Result<(), WayFault>
    ensures added { OnOk result (Adds (outcome_if (with_test (course_tree symbolic_run.old) (cond_tree cond)) (target_outcome setting.now.blocks.now setting.now.sorts.now (λ l. slice_index_or setting.now.places.now l false) depth block)) found.old found.new) }
    ensures refused { IfErr result (HasReason (outcome_if (with_test (course_tree symbolic_run.old) (cond_tree cond)) (target_outcome setting.now.blocks.now setting.now.sorts.now (λ l. slice_index_or setting.now.places.now l false) depth block)) found.old.count) }
    ensures restored { OnOk result (course_tree symbolic_run.new ≡ course_tree symbolic_run.old) }
{
    let facts = count_facts(&symbolic_run.facts);
    let tests = count_tests(&symbolic_run.tests);
    let forms = copy_forms(setting.alloc, &symbolic_run.forms)?;
    ways_under(setting, depth, cond, block, symbolic_run, found)?;
    symbolic_run.forms = forms;
    cut_facts(&mut symbolic_run.facts, facts);
    cut_tests(&mut symbolic_run.tests, tests);
    Ok(())
}

// Finds the ways on which a condition holds.
#[cycle(ways)]
#[tactic(auto, using(crate::proofs::CourseLists::none_then, crate::proofs::CourseLists::still_first, crate::proofs::FoundWays::course_stops, crate::proofs::FoundWays::course_goes))]
fn ways_under(
    setting: &Setting,
    depth: usize,
    cond: FlowCond,
    block: usize,
    symbolic_run: &mut SymbolicRun,
    found: &mut Found,
) -> Result<(), WayFault>
    ensures added { OnOk result (Adds (outcome_if (with_test (course_tree symbolic_run.old) (cond_tree cond)) (target_outcome setting.now.blocks.now setting.now.sorts.now (λ l. slice_index_or setting.now.places.now l false) depth block)) found.old found.new) }
    ensures refused { IfErr result (HasReason (outcome_if (with_test (course_tree symbolic_run.old) (cond_tree cond)) (target_outcome setting.now.blocks.now setting.now.sorts.now (λ l. slice_index_or setting.now.places.now l false) depth block)) found.old.count) }
    ensures grown { OnOk result (IsGrown (course_tree symbolic_run.old) (course_tree symbolic_run.new)) }
{
    let goes = query(setting.alloc, cond, symbolic_run)?;
    if !goes {
        return Ok(());
    }
    ways_on(setting, depth, block, symbolic_run, found)
}

// Goes on at the target of a jump: ends at a place, or finds the ways from the block.
#[cycle(ways)]
#[tactic(auto, using(crate::proofs::CourseLists::take_own))]
fn ways_on(
    setting: &Setting,
    depth: usize,
    block: usize,
    symbolic_run: &mut SymbolicRun,
    found: &mut Found,
) -> Result<(), WayFault>
    ensures added { OnOk result (Adds (target_outcome setting.now.blocks.now setting.now.sorts.now (λ l. slice_index_or setting.now.places.now l false) depth block (course_tree symbolic_run.old)) found.old found.new) }
    ensures refused { IfErr result (HasReason (target_outcome setting.now.blocks.now setting.now.sorts.now (λ l. slice_index_or setting.now.places.now l false) depth block (course_tree symbolic_run.old)) found.old.count) }
    ensures grown { OnOk result (IsGrown (course_tree symbolic_run.old) (course_tree symbolic_run.new)) }
{
    if is_place(setting.places, block) {
        return end_at_place(setting.alloc, block, symbolic_run, found);
    }
    ways_from(setting, depth, block, symbolic_run, found)
}

fn first_course(alloc: Global, sorts: &[Sort]) -> Result<SymbolicRun, NoMemory>
    ensures { IfOk result (λ symbolic_run. course_tree symbolic_run ≡ course_of_place sorts.now) }
{
    let forms = initial_forms(alloc, sorts)?;
    let facts = Vec::new(alloc);
    let tests = Vec::new(alloc);
    Ok(SymbolicRun {
        forms,
        facts,
        tests,
    })
}

/// Returns the ways from a place, in the order of a depth-first walk that takes the first target of a branch first.
/// `places` says for each block whether it is a place. Fails with `TooLarge` or `TooManyPaths` if a form on a way is
/// too large, or if there are more than `MAX_WAYS` ways, those that abort included; one of them is named if both hold.
#[tactic(auto, using(crate::proofs::FoundWays::all_ways_are, crate::proofs::FoundWays::none_before))]
pub fn ways(
    alloc: Global,
    blocks: &[Block],
    sorts: &[Sort],
    places: &[bool],
    block: usize,
) -> Result<Vec<Way>, WayFault>
    ensures found { IfOk result (λ list. map way_tree list.items ≡ ways_of (graph_of blocks.now) sorts.now (λ l. slice_index_or places.now l false) block) }
    ensures few { IfOk result (λ _. (all_ways blocks.now sorts.now (λ l. slice_index_or places.now l false) block).count ≤ MAX_WAYS) }
    ensures fits { IfOk result (λ _. (all_ways blocks.now sorts.now (λ l. slice_index_or places.now l false) block).fits ≡ true) }
    ensures large { IfErr result (λ e. e ≡ WayFault.TooLarge → (all_ways blocks.now sorts.now (λ l. slice_index_or places.now l false) block).fits ≡ false) }
    ensures many { IfErr result (λ e. e ≡ WayFault.TooManyPaths → MAX_WAYS < (all_ways blocks.now sorts.now (λ l. slice_index_or places.now l false) block).count) }
{
    let setting = Setting {
        alloc,
        blocks,
        sorts,
        places,
    };
    let mut symbolic_run = first_course(alloc, sorts)?;
    let list = Vec::new(alloc);
    let mut found = Found {
        ways: list,
        count: 0,
    };
    ways_from(&setting, blocks.len(), block, &mut symbolic_run, &mut found)?;
    let Found { ways, .. } = found;
    Ok(ways)
}
