//! Guarded strings.
use kat_model::Items;
use std::marker::Model;

/// An action, numbered from 0, and the truth values of the tests after it, test 0 first.
pub struct Move {
    pub act: usize,
    pub atom: Items<bool>,
}

// Explicit, so that this crate proves it once: a derived drop is a part of the proof of each function that owns a
// move, at each of its ends.
impl Drop for Move {
    fn drop(self) {
        let Move {
            act: _act,
            atom: _atom,
        } = self;
    }
}

impl Model for Move {
    ghost use Rattle.kat_model.specs.Strings.{Move as Move'};

    ghost Value = { Move' };

    ghost view = { λ m. record { act = m.act; atom = m.atom } };
}

/// A guarded string: the first truth values, and moves (Kaplan 1969; Kozen and Smith 1996).
pub struct GString {
    pub first: Items<bool>,
    pub rest: Items<Move>,
}

// Explicit, as for moves.
impl Drop for GString {
    fn drop(self) {
        let GString {
            first: _first,
            rest: _rest,
        } = self;
    }
}

impl Model for GString {
    ghost use Rattle.kat_model.specs.Strings.{GuardedString};

    ghost Value = { GuardedString };

    ghost view = { λ x. record { first = x.first; rest = x.rest } };
}
