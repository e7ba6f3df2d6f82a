//! A position of a string.
ghost use Rattle.std.specs.Prelude.{◌≡◌, ◌+◌, ◌≤◌, length};
ghost use Rattle.kat_model.specs.Trees.{test_tree};
ghost use Rattle.kat_model.specs.Steps.{truth};
ghost use Rattle.tool_explain.specs.Working.Walks.{atom_from, is_next, count_of};

use kat_model::Test;
use string_tables::GString;

// Returns whether the truth values satisfy the test. A test without a value is false.
fn holds(test: &Test, atom: &[bool]) -> bool
    ensures { result ≡ truth (test_tree test.now) atom.now }
{
    match test {
        Test::False => false,
        Test::True => true,
        Test::Prim(k) => atom.get(*k).copied().unwrap_or(false),
        Test::Not(b) => !holds(b, atom),
        Test::And(b, c) => holds(b, atom) && holds(c, atom),
        Test::Or(b, c) => holds(b, atom) || holds(c, atom),
    }
}

/// A position of a string, from 0.
#[derive(Drop)]
pub(crate) struct Cursor<'a> {
    pub string: &'a GString,
    pub at: usize,
    ghost within: { at ≤ length string.now.rest },
}

impl<'a> Cursor<'a> {
    pub(crate) fn new(string: &'a GString) -> Cursor<'a>
        ensures string { result.string.now ≡ string.now }
        ensures start { result.at ≡ 0 }
    {
        Cursor { string, at: 0 }
    }

    // Returns the truth values at the position.
    fn atom(&self) -> &[bool]
        ensures { result.now ≡ atom_from self.now.string.now self.now.at }
    {
        let string = self.string;
        if self.at == 0 {
            return string.first.as_slice();
        }
        let step = &string.rest.as_slice()[self.at - 1];
        step.atom.as_slice()
    }

    /// Returns whether the test is true at the position.
    pub(crate) fn holds(&self, test: &Test) -> bool
        ensures { result ≡ truth (test_tree test.now) (atom_from self.now.string.now self.now.at) }
    {
        holds(test, self.atom())
    }

    /// Moves to the next position if this action leads there. Otherwise returns `false`, and the position is unchanged.
    pub(crate) fn follow(&mut self, action: usize) -> bool
        ensures string { self.new.string.now ≡ self.old.string.now }
        ensures followed { result ≡ is_next self.old.string.now self.old.at action }
        ensures next { self.new.at ≡ self.old.at + count_of result }
    {
        let string = self.string;
        match string.rest.as_slice().get(self.at) {
            Some(next) if next.act == action => {
                self.at += 1;
                true
            }
            _ => false,
        }
    }
}
