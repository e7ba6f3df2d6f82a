//! A string as text, position by position, and what it shows.
ghost use Rattle.std.specs.Prelude.{◌≡◌, ◌++◌, IfOk, OnOk};
ghost use Rattle.kat_report.specs.Replays.{literal_text, literals_text, position_line, move_line, moves_text, string_text, finding_line, replay_text, Fits};

use kat_model::NoMemory;
use std::alloc::Global;
use string_tables::{Finding, GString, Move};
use text_print::{put_numbered, put_word};

// Appends a space and the test with this number, or its complement if it is false.
fn put_literal(alloc: Global, out: &mut Vec<u8>, test: usize, value: bool) -> Result<(), NoMemory>
    ensures { OnOk result (out.new.items ≡ out.old.items ++ literal_text test value) }
{
    if value {
        put_numbered(alloc, out, " t", test)
    } else {
        put_numbered(alloc, out, " !t", test)
    }
}

// Appends each test of an atom.
fn put_literals(alloc: Global, out: &mut Vec<u8>, atom: &[bool]) -> Result<(), NoMemory>
    ensures { OnOk result (out.new.items ≡ out.old.items ++ literals_text 0 atom.now) }
{
    for (test, value) in atom.iter().enumerate() {
        put_literal(alloc, out, test, *value)?;
    }
    Ok(())
}

fn put_position(
    alloc: Global,
    out: &mut Vec<u8>,
    position: usize,
    atom: &[bool],
) -> Result<(), NoMemory>
    ensures { OnOk result (out.new.items ≡ out.old.items ++ position_line position atom.now) }
{
    put_numbered(alloc, out, "", position)?;
    put_literals(alloc, out, atom)?;
    put_word(out, "\n")
}

// Appends the line of a move, and the line of the position that it leads to.
fn put_move(alloc: Global, out: &mut Vec<u8>, position: usize, step: &Move) -> Result<(), NoMemory>
    ensures { OnOk result (out.new.items ≡ out.old.items ++ (move_line step.now.act ++ position_line position step.now.atom)) }
{
    put_numbered(alloc, out, "a", step.act)?;
    put_word(out, "\n")?;
    put_position(alloc, out, position, step.atom.as_slice())
}

// Appends all moves of a string, with the positions from 1 on.
fn put_moves(alloc: Global, out: &mut Vec<u8>, moves: &[Move]) -> Result<(), NoMemory>
    ensures { OnOk result (out.new.items ≡ out.old.items ++ moves_text 1 moves.now) }
{
    for (k, step) in moves.iter().enumerate() {
        put_move(alloc, out, k + 1, step)?;
    }
    Ok(())
}

fn put_string(alloc: Global, out: &mut Vec<u8>, string: &GString) -> Result<(), NoMemory>
    ensures { OnOk result (out.new.items ≡ out.old.items ++ string_text string.now) }
{
    put_position(alloc, out, 0, string.first.as_slice())?;
    put_moves(alloc, out, string.rest.as_slice())
}

// Appends the line for a broken hypothesis.
fn put_broken(
    alloc: Global,
    out: &mut Vec<u8>,
    hyp: usize,
    from: usize,
    to: usize,
) -> Result<(), NoMemory>
    ensures { OnOk result (out.new.items ≡ out.old.items ++ finding_line (Finding.HypBroken hyp from to)) }
{
    put_numbered(alloc, out, "hypothesis ", hyp)?;
    put_numbered(alloc, out, " relates ", from)?;
    put_numbered(alloc, out, " to ", to)?;
    put_word(out, "\n")
}

fn put_finding(alloc: Global, out: &mut Vec<u8>, finding: &Finding) -> Result<(), NoMemory>
    requires { Fits finding.now }
    ensures { OnOk result (out.new.items ≡ out.old.items ++ finding_line finding.now) }
{
    match finding {
        Finding::Refutes(true) => put_word(out, "refutes: left relates the ends, right does not\n"),
        Finding::Refutes(false) => put_word(
            out,
            "refutes: right relates the ends, left does not\n",
        ),
        Finding::HypBroken(hyp, from, to) => put_broken(alloc, out, *hyp, *from, *to),
        Finding::EndsAgree(true) => put_word(out, "both relate the ends\n"),
        Finding::EndsAgree(false) => put_word(out, "neither relates the ends\n"),
        Finding::Shape(_) => Ok(()),
    }
}

/// Returns a string as text, position by position, and what it shows. Each position, counted from 0, has a line with
/// its number and its tests: ` tI` if test I is true, ` !tI` if it is false. A line `aI` between two positions is the
/// action I that leads from one to the next. The last line is the finding, which must be for a string that fits. Fails
/// only when out of memory.
pub fn replay_text(alloc: Global, string: &GString, verdict: &Finding) -> Result<Vec<u8>, NoMemory>
    requires { Fits verdict.now }
    ensures { IfOk result (λ text. text.items ≡ replay_text string.now verdict.now) }
{
    let mut text = Vec::new(alloc);
    put_string(alloc, &mut text, string)?;
    put_finding(alloc, &mut text, verdict)?;
    Ok(text)
}
