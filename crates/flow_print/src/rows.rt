//! Comments with the meanings of tests and actions.
ghost use Rattle.flow_print.specs.Working.Written.{Writes, test_line, test_lines, action_line, action_lines};

use crate::actions::put_action;
use crate::comparisons::put_comparison;
use crate::names::FlowNames;
use flow_edges::FlowAction;
use flow_forms::FlowComparison;
use kat_model::NoMemory;
use problem_file::{put_action_name, put_test_name};
use std::alloc::Global;
use text_print::put;

fn put_test_comment(
    alloc: Global,
    out: &mut Vec<u8>,
    names: &FlowNames,
    number: usize,
    comparison: &FlowComparison,
) -> Result<(), NoMemory>
    ensures { Writes result out.old out.new (test_line names.now number comparison.now) }
{
    put(out, b"# ")?;
    put_test_name(alloc, out, number)?;
    put(out, b" is ")?;
    put_comparison(alloc, out, names, comparison)?;
    put(out, b"\n")
}

/// Appends a comment with the comparison of each test.
pub(crate) fn put_test_comments(
    alloc: Global,
    out: &mut Vec<u8>,
    names: &FlowNames,
    tests: &[FlowComparison],
) -> Result<(), NoMemory>
    ensures { Writes result out.old out.new (test_lines names.now tests.now) }
{
    for (number, comparison) in tests.iter().enumerate() {
        put_test_comment(alloc, out, names, number, comparison)?;
    }
    Ok(())
}

fn put_action_comment(
    alloc: Global,
    out: &mut Vec<u8>,
    names: &FlowNames,
    number: usize,
    action: &FlowAction,
) -> Result<(), NoMemory>
    ensures { Writes result out.old out.new (action_line names.now number action.now) }
{
    put(out, b"# ")?;
    put_action_name(alloc, out, number)?;
    put(out, b" is ")?;
    put_action(alloc, out, names, action)?;
    put(out, b"\n")
}

/// Appends a comment with the assignments or the results of each action.
pub(crate) fn put_action_comments(
    alloc: Global,
    out: &mut Vec<u8>,
    names: &FlowNames,
    actions: &[FlowAction],
) -> Result<(), NoMemory>
    ensures { Writes result out.old out.new (action_lines names.now actions.now) }
{
    for (number, action) in actions.iter().enumerate() {
        put_action_comment(alloc, out, names, number, action)?;
    }
    Ok(())
}
