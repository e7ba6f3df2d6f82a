//! The strings of at most one move that a term accepts. A test beyond the end of an atom is false there.
ghost use Rattle.std.specs.Prelude.{◌≡◌, ◌&&◌, ◌||◌, ◌∷◌, []};
ghost use Rattle.kat_model.specs.Trees.{test_tree, kat_tree};
ghost use Rattle.kat_model.specs.Steps.{truth, out};
ghost use Rattle.kat_model.specs.Strings.{accepts};

use kat_model::{Kat, Test};

// Whether the atom satisfies the test.
fn holds_at(test: &Test, atom: &[bool]) -> bool
    ensures { result ≡ truth (test_tree test.now) atom.now }
{
    match test {
        Test::False => false,
        Test::True => true,
        Test::Prim(k) => atom.get(*k).copied().unwrap_or(false),
        Test::Not(b) => !holds_at(b, atom),
        Test::And(b, c) => holds_at(b, atom) && holds_at(c, atom),
        Test::Or(b, c) => holds_at(b, atom) || holds_at(c, atom),
    }
}

/// Whether the term accepts the atom, which is a string without a move.
pub fn accepts_atom(term: &Kat, atom: &[bool]) -> bool
    ensures { result ≡ out (kat_tree term.now) atom.now }
{
    match term {
        Kat::Zero | Kat::Act(_) => false,
        Kat::One | Kat::Star(_) => true,
        Kat::Test(b) => holds_at(b, atom),
        Kat::Sum(e, f) => accepts_atom(e, atom) || accepts_atom(f, atom),
        Kat::Seq(e, f) => accepts_atom(e, atom) && accepts_atom(f, atom),
    }
}

// Whether the product of two terms accepts a move: the first accepts it and the second its end, or the first its start
// and the second the move.
fn is_product(first: bool, ends: bool, starts: bool, second: bool) -> bool
    ensures { result ≡ ((first && ends) || (starts && second)) }
{
    (first && ends) || (starts && second)
}

/// Whether the term accepts the string of one move: by `act` from the atom `from` to the atom `to`.
pub fn accepts_move(term: &Kat, from: &[bool], act: usize, to: &[bool]) -> bool
    ensures { result ≡ accepts (kat_tree term.now) from.now (record { act = act; atom = to.now } ∷ []) }
{
    match term {
        Kat::Zero | Kat::One | Kat::Test(_) => false,
        Kat::Act(a) => *a == act,
        Kat::Sum(e, f) => accepts_move(e, from, act, to) || accepts_move(f, from, act, to),
        Kat::Seq(e, f) => {
            let first = accepts_move(e, from, act, to);
            let ends = accepts_atom(f, to);
            let starts = accepts_atom(e, from);
            let second = accepts_move(f, from, act, to);
            is_product(first, ends, starts, second)
        }
        Kat::Star(e) => accepts_move(e, from, act, to),
    }
}
