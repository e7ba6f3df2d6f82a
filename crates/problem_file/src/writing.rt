//! Writes the parts of a plain text. Each function appends to a text and fails only when out of memory; a part may then
//! be written.
ghost use Rattle.std.specs.Prelude.{◌≡◌, ◌∷◌, ◌++◌, map, OnOk};
ghost use Rattle.std.specs.List.{range_with_len};
ghost use Rattle.std.specs.Fmt.{decimal};
ghost use Rattle.kat_model.specs.Trees.{kat_tree};
ghost use Rattle.text_parser.specs.declared.meaning.Meaning.TheVariants.{Test, Action};
ghost use Rattle.text_print.specs.Printing.{name_of, term_text};
ghost use Rattle.problem_file.specs.Questions.{plain_name, declaration_text, tests_text, actions_text, hyp_text, goal_text};

use kat_model::{Kat, NoMemory};
use std::alloc::Global;
use text_parser::Scope;
use text_print::{print_term, put};

// Appends a letter and a number.
fn put_name(alloc: Global, out: &mut Vec<u8>, letter: u8, number: usize) -> Result<(), NoMemory>
    ensures { OnOk result (out.new.items ≡ out.old.items ++ (letter ∷ decimal number)) }
{
    out.push(letter)?;
    put(out, format!(in alloc; "{number}")?.as_bytes())
}

/// Appends the name of test `k`: `t` and its number.
pub fn put_test_name(alloc: Global, out: &mut Vec<u8>, k: usize) -> Result<(), NoMemory>
    ensures { OnOk result (out.new.items ≡ out.old.items ++ plain_name (Test k)) }
{
    put_name(alloc, out, b't', k)
}

/// Appends the name of action `a`: `a` and its number.
pub fn put_action_name(alloc: Global, out: &mut Vec<u8>, a: usize) -> Result<(), NoMemory>
    ensures { OnOk result (out.new.items ≡ out.old.items ++ plain_name (Action a)) }
{
    put_name(alloc, out, b'a', a)
}

// Appends the declaration of `count` names that begin with the letter, or nothing if there are none.
fn put_declaration(
    alloc: Global,
    out: &mut Vec<u8>,
    keyword: &[u8],
    letter: u8,
    count: usize,
) -> Result<(), NoMemory>
    ensures { OnOk result (out.new.items ≡ out.old.items ++ declaration_text keyword.now (map (λ k. letter ∷ decimal k) (range_with_len 0 count))) }
{
    if count == 0 {
        return Ok(());
    }
    put(out, keyword)?;
    put(out, b" ")?;
    put_name(alloc, out, letter, 0)?;
    for k in 1..count {
        put(out, b", ")?;
        put_name(alloc, out, letter, k)?;
    }
    put(out, b";\n")
}

/// Appends the line `test t0, t1;` for `count` tests, or nothing if there are none.
pub fn put_tests(alloc: Global, out: &mut Vec<u8>, count: usize) -> Result<(), NoMemory>
    ensures { OnOk result (out.new.items ≡ out.old.items ++ tests_text count) }
{
    put_declaration(alloc, out, b"test", b't', count)
}

/// Appends the line `action a0, a1;` for `count` actions, or nothing if there are none.
pub fn put_actions(alloc: Global, out: &mut Vec<u8>, count: usize) -> Result<(), NoMemory>
    ensures { OnOk result (out.new.items ≡ out.old.items ++ actions_text count) }
{
    put_declaration(alloc, out, b"action", b'a', count)
}

#[tactic(auto, using(crate::proofs::PlainWritten::printed_text))]
fn put_term(alloc: Global, out: &mut Vec<u8>, term: &Kat, scope: &Scope) -> Result<(), NoMemory>
    ensures { OnOk result (out.new.items ≡ out.old.items ++ term_text (name_of scope.now) (kat_tree term.now)) }
{
    let text = print_term(alloc, term, scope)?;
    put(out, &text)
}

/// Appends the line `hyp TERM = 0;`, with the names of the scope.
pub fn put_hyp(alloc: Global, out: &mut Vec<u8>, hyp: &Kat, scope: &Scope) -> Result<(), NoMemory>
    ensures { OnOk result (out.new.items ≡ out.old.items ++ hyp_text (name_of scope.now) (kat_tree hyp.now)) }
{
    put(out, b"hyp ")?;
    put_term(alloc, out, hyp, scope)?;
    put(out, b" = 0;\n")
}

/// Appends the line `goal equal LEFT, RIGHT;`, with the names of the scope.
pub fn put_goal(
    alloc: Global,
    out: &mut Vec<u8>,
    left: &Kat,
    right: &Kat,
    scope: &Scope,
) -> Result<(), NoMemory>
    ensures { OnOk result (out.new.items ≡ out.old.items ++ goal_text (name_of scope.now) (kat_tree left.now) (kat_tree right.now)) }
{
    put(out, b"goal equal ")?;
    put_term(alloc, out, left, scope)?;
    put(out, b", ")?;
    put_term(alloc, out, right, scope)?;
    put(out, b";\n")
}
