//! Notes during reading.
ghost use Rattle.std.specs.Prelude.{◌≡◌, ◌&&◌, Some, false};
ghost use Rattle.outline_rules.specs.NoteLists.{NotesParts, node_parts};
ghost use Rattle.outline_rules.specs.Faults.{are_below, no_lines, is_section_allowed, is_wide, names_earlier, note_format};
ghost use Rattle.line_format.specs.KnownLines.{Distinguishes, IsReflexive};
ghost use Rattle.outline_rules.specs.Working.Readings.{draft_parts, IsDraft, MayBeAdded, AddsLine, unless_memory, is_given, is_passed_on};
ghost use Rattle.outline_rules.specs.declared.line.NoteLine.{NoteLine};
ghost use Rattle.outline_rules.specs.declared.line.NoteLine.TheVariants.{Node, Note};

use crate::fault::NotesFault;
use crate::line::{LineFault, NoteLine, Section, read_line};
use crate::notes::{NoteNode, Notes};
use line_format::LineDraft;
use std::alloc::Global;
use std::collections::BTreeSet;

// The lines read so far. `known` has the same nodes as `nodes`, to find an equal node fast.
pub(crate) struct Draft {
    nodes: Vec<NoteNode>,
    notes: Vec<usize>,
    known: BTreeSet<NoteNode>,
}

// Explicit, so that it is proved once and not at each end of each function that owns one.
impl Drop for Draft {
    fn drop(self) {
        let Draft {
            nodes: _nodes,
            notes: _notes,
            known: _known,
        } = self;
    }
}

// Does nothing: its contract states two facts about the order of nodes in the set.
fn node_order()
    ensures apart { Distinguishes ⟦<NoteNode as Ord>⟧.cmp }
    ensures own { IsReflexive ⟦<NoteNode as Ord>⟧.cmp }
{}

fn node_names_earlier(node: NoteNode, count: usize) -> bool
    ensures { result ≡ are_below count (node_parts node) }
{
    match node {
        NoteNode::False | NoteNode::True => true,
        NoteNode::Branch(_, low, high) => low < count && high < count,
    }
}

impl Draft {
    pub(crate) fn new(alloc: Global) -> Draft
        ensures lines { draft_parts result ≡ no_lines }
        ensures draft { IsDraft result }
    {
        Draft {
            nodes: Vec::new(alloc),
            notes: Vec::new(alloc),
            known: BTreeSet::new(alloc),
        }
    }

    fn is_section_allowed(&self, section: Section) -> bool
        ensures { result ≡ is_section_allowed (draft_parts self.now) section }
    {
        match section {
            Section::Nodes => self.notes.is_empty(),
            Section::Notes => true,
        }
    }

    fn names_earlier(&self, line: NoteLine) -> bool
        ensures { result ≡ names_earlier (draft_parts self.now) line }
    {
        let count = self.nodes.len();
        match line {
            NoteLine::Node(node) => node_names_earlier(node, count),
            NoteLine::Note(node) => node < count,
        }
    }

    fn add_node(&mut self, node: NoteNode, number: u64) -> Result<(), NotesFault>
        requires draft { IsDraft self.old }
        requires tested { MayBeAdded self.old (Node node) }
        ensures { AddsLine self.old number (Some (Node node)) self.new result }
    {
        node_order();
        let is_new = self.known.insert(node)?;
        if !is_new {
            return Err(NotesFault::DoubleNode(number));
        }
        self.nodes.push(node)?;
        Ok(())
    }

    fn add_note(&mut self, node: usize, number: u64) -> Result<(), NotesFault>
        requires draft { IsDraft self.old }
        requires tested { MayBeAdded self.old (Note node) }
        ensures { AddsLine self.old number (Some (Note node)) self.new result }
    {
        self.notes.push(node)?;
        Ok(())
    }

    fn add_line(&mut self, line: NoteLine, number: u64) -> Result<(), NotesFault>
        requires draft { IsDraft self.old }
        requires narrow { is_wide line ≡ false }
        ensures { AddsLine self.old number (Some line) self.new result }
    {
        if !self.is_section_allowed(line.section()) {
            return Err(NotesFault::Line(number));
        }
        if !self.names_earlier(line) {
            return Err(NotesFault::NodeOrder(number));
        }
        match line {
            NoteLine::Node(node) => self.add_node(node, number),
            NoteLine::Note(node) => self.add_note(node, number),
        }
    }
}

impl LineDraft for Draft {
    type Value = Notes;

    type Fault = NotesFault;

    ghost L = { NoteLine };

    ghost D = { NotesParts };

    ghost format = { note_format };

    ghost unless = { unless_memory };

    ghost parts = { draft_parts };

    ghost Keeps = { IsDraft };

    fn add(&mut self, alloc: Global, line: &[u8], number: u64) -> Result<(), NotesFault> {
        match read_line(alloc, line) {
            Ok(line) => self.add_line(line, number),
            Err(LineFault::NoMemory) => Err(NotesFault::NoMemory),
            Err(LineFault::Form) => Err(NotesFault::Line(number)),
            Err(LineFault::Wide(section)) => {
                if self.is_section_allowed(section) {
                    return Err(NotesFault::NumberTooWide(number));
                }
                Err(NotesFault::Line(number))
            }
        }
    }

    fn finish(self) -> Notes {
        let Draft {
            nodes,
            notes,
            known: _,
        } = self;
        Notes::of_parts(nodes, notes)
    }

    fn truncated() -> NotesFault {
        NotesFault::Truncated
    }

    fn trailing(number: u64) -> NotesFault {
        NotesFault::Trailing(number)
    }

    ghost is_given = { is_given };

    ghost is_passed_on = { is_passed_on };
}
