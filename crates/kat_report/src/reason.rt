//! The line with the reason why evidence is rejected.
ghost use Rattle.std.specs.Prelude.{◌≡◌, ◌++◌, codes, if◌then◌else◌, IfOk, OnOk};
ghost use Rattle.std.specs.Fmt.{decimal};
ghost use Rattle.certificate.specs.Texts.{atom_bits};
ghost use Rattle.kat_report.specs.Reasons.{atom_text, reason_text, reason_line, no_string_line};

use cert_checker::Reason;
use kat_model::{Items, NoMemory};
use std::alloc::Global;
use text_print::{put_numbered, put_word};

fn bit(value: bool) -> u8
    ensures { result ≡ (if value then 49 else 48) }
{
    if value { b'1' } else { b'0' }
}

fn put_bits(out: &mut Vec<u8>, atom: &[bool]) -> Result<(), NoMemory>
    ensures { OnOk result (out.new.items ≡ out.old.items ++ atom_bits atom.now) }
{
    for value in atom {
        out.push(bit(*value))?;
    }
    Ok(())
}

// Appends the bits of an atom, or a dash if there are no tests.
fn put_atom(out: &mut Vec<u8>, atom: &[bool]) -> Result<(), NoMemory>
    ensures { OnOk result (out.new.items ≡ out.old.items ++ atom_text atom.now) }
{
    if atom.is_empty() {
        return put_word(out, "-");
    }
    put_bits(out, atom)
}

// Appends a word, the number of a pair, and an atom.
fn put_place(
    alloc: Global,
    out: &mut Vec<u8>,
    word: &str,
    pair: usize,
    atom: &[bool],
) -> Result<(), NoMemory>
    ensures { OnOk result (out.new.items ≡ out.old.items ++ (word.now ++ decimal pair ++ codes " atom " ++ atom_text atom.now)) }
{
    put_numbered(alloc, out, word, pair)?;
    put_word(out, " atom ")?;
    put_atom(out, atom)
}

fn put_missing(
    alloc: Global,
    out: &mut Vec<u8>,
    pair: usize,
    atom: &Items<bool>,
    action: usize,
) -> Result<(), NoMemory>
    ensures { OnOk result (out.new.items ≡ out.old.items ++ reason_text (Reason.Missing pair atom.now action)) }
{
    put_place(alloc, out, "Missing pair ", pair, atom.as_slice())?;
    put_numbered(alloc, out, " action ", action)
}

fn put_missing_to(
    alloc: Global,
    out: &mut Vec<u8>,
    pair: usize,
    atom: &Items<bool>,
    action: usize,
    to: &Items<bool>,
) -> Result<(), NoMemory>
    ensures { OnOk result (out.new.items ≡ out.old.items ++ reason_text (Reason.MissingTo pair atom.now action to.now)) }
{
    put_missing(alloc, out, pair, atom, action)?;
    put_word(out, " to ")?;
    put_atom(out, to.as_slice())
}

fn put_broken(
    alloc: Global,
    out: &mut Vec<u8>,
    hyp: usize,
    from: usize,
    to: usize,
) -> Result<(), NoMemory>
    ensures { OnOk result (out.new.items ≡ out.old.items ++ reason_text (Reason.HypBroken hyp from to)) }
{
    put_numbered(alloc, out, "HypBroken hyp ", hyp)?;
    put_numbered(alloc, out, " from ", from)?;
    put_numbered(alloc, out, " to ", to)
}

fn put_reason(alloc: Global, out: &mut Vec<u8>, reason: &Reason) -> Result<(), NoMemory>
    ensures { OnOk result (out.new.items ≡ out.old.items ++ reason_text reason.now) }
{
    match reason {
        Reason::FirstPair => put_word(out, "FirstPair"),
        Reason::Output(pair, atom) => put_place(alloc, out, "Output pair ", *pair, atom.as_slice()),
        Reason::Missing(pair, atom, action) => put_missing(alloc, out, *pair, atom, *action),
        Reason::MissingTo(pair, atom, action, to) => {
            put_missing_to(alloc, out, *pair, atom, *action, to)
        }
        Reason::Shape(position) => put_numbered(alloc, out, "Shape ", *position),
        Reason::HypBroken(hyp, from, to) => put_broken(alloc, out, *hyp, *from, *to),
        Reason::EndsAgree => put_word(out, "EndsAgree"),
        Reason::TestNode(node) => put_numbered(alloc, out, "TestNode ", *node),
        Reason::TermNode(node) => put_numbered(alloc, out, "TermNode ", *node),
    }
}

/// Returns the line with the reason why evidence is rejected: `rejected: `, the name of the reason, and its numbers
/// with the words that name them, as in `rejected: Missing pair 1 atom 010 action 2`. In the style of tests, ` to 110`
/// follows. An atom has a bit for each test, test 0 first, and is `-` if there are no tests. Fails only when out of
/// memory.
pub fn reason_line(alloc: Global, reason: &Reason) -> Result<Vec<u8>, NoMemory>
    ensures { IfOk result (λ line. line.items ≡ reason_line reason.now) }
{
    let mut line = b"rejected: ".to_vec(alloc)?;
    put_reason(alloc, &mut line, reason)?;
    line.push(b'\n')?;
    Ok(line)
}

/// Returns the line `rejected: NotAString`: `replay` replays strings, and the evidence is a certificate.
pub fn no_string_line() -> &'static [u8]
    ensures { result.now ≡ no_string_line }
{
    b"rejected: NotAString\n"
}
