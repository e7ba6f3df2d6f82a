//! Notes of an outline.
ghost use Rattle.std.specs.Prelude.{◌≡◌};
ghost use Rattle.outline_rules.specs.NoteLists.{notes_of, AreNotes};

use std::marker::Model;

/// A set of atoms (truth values of all tests), as a node of a decision diagram (Bryant 1986) whose branches may test in
/// any order.
#[derive(Clone, Copy, PartialEq, Eq, PartialOrd, Ord, Hash)]
pub enum NoteNode {
    False,
    True,
    /// A test, the node for the atoms where it is false, and the node for those where it is true.
    Branch(usize, usize, usize),
}

/// The notes of an outline: nodes, and for each place of a program the number of its node. Nodes are numbered from 0. A
/// branch names only earlier nodes, no node occurs twice, and each note names a node.
pub struct Notes {
    nodes: Vec<NoteNode>,
    notes: Vec<usize>,
}

// Explicit, so that it is proved once and not at each end of each function that owns one.
impl Drop for Notes {
    fn drop(self) {
        let Notes {
            nodes: _nodes,
            notes: _notes,
        } = self;
    }
}

impl Model for Notes {
    ghost use Rattle.outline_rules.specs.NoteLists.{NotesParts, notes_of, AreNotes};

    ghost Value = { NotesParts };

    ghost view = { λ n. notes_of n.nodes.items n.notes.items };

    ghost invariant = { λ n. AreNotes (notes_of n.nodes.items n.notes.items) };
}

impl Notes {
    /// Returns the notes with these parts, which must keep the rules. Allocates nothing.
    pub fn of_parts(nodes: Vec<NoteNode>, notes: Vec<usize>) -> Notes
        requires { AreNotes (notes_of nodes.items notes.items) }
        ensures { result ≡ notes_of nodes.items notes.items }
    {
        Notes { nodes, notes }
    }

    /// Returns the nodes.
    pub fn nodes(&self) -> &[NoteNode]
        ensures value { result.now ≡ self.now.nodes }
        ensures rules { AreNotes self.now }
    {
        &self.nodes
    }

    /// Returns the number of the node at each place.
    pub fn notes(&self) -> &[usize]
        ensures value { result.now ≡ self.now.notes }
        ensures rules { AreNotes self.now }
    {
        &self.notes
    }
}
