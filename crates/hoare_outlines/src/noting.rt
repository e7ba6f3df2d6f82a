//! Sets of atoms as notes.
ghost use Rattle.std.specs.Prelude.{◌≡◌, ◌≤◌, [], IfOk, IfSome, OnOk, Some, slice_get};
ghost use Rattle.kat_model.specs.Members.{HasNoDoubles};
ghost use Rattle.outline_rules.specs.StepFunctions.{StepDiagramsParts, IsStepId, KeepsSteps, AreStepDiagrams};
ghost use Rattle.hoare_outlines.specs.Working.Noted.{IsSetFrom, IsNodeFor, AreNoteNodes, AreKnown, IsNodeWriter, AddsNode, AddsNodes, AreSets, AreNodesFor, NotesSets};

use indexmap::{IndexMap, IndexSet};
use kat_model::NoMemory;
use outline_rules::{DiagramId, Moment, NoteNode, Notes, StepDiagrams};
use std::alloc::Global;

// The nodes so far, and the known nodes of diagrams.
struct NodeWriter {
    nodes: IndexSet<NoteNode>,
    known: IndexMap<DiagramId, usize>,
}

// Explicit, so that it is proved once and not at each end of each function that owns one.
impl Drop for NodeWriter {
    fn drop(self) {
        let NodeWriter {
            nodes: _nodes,
            known: _known,
        } = self;
    }
}

impl NodeWriter {
    fn new(alloc: Global) -> NodeWriter
        ensures nodes { result.nodes.keys ≡ [] }
        ensures known { result.known.entries ≡ [] }
    {
        NodeWriter {
            nodes: IndexSet::new(alloc),
            known: IndexMap::new(alloc),
        }
    }

    // Returns the number of a node, which it appends unless it exists.
    fn node(&mut self, node: NoteNode) -> Result<usize, NoMemory>
        ensures number { IfOk result (λ k. slice_get self.new.nodes.keys k ≡ Some node) }
        ensures added { OnOk result (AddsNode self.old.nodes.keys self.new.nodes.keys node) }
        ensures once { HasNoDoubles self.new.nodes.keys }
        ensures known { self.new.known.entries ≡ self.old.known.entries }
    {
        match self.nodes.insert_full(node) {
            Ok((index, _)) => Ok(index),
            Err(_) => Err(NoMemory),
        }
    }

    // Returns the stored node of a diagram, if any.
    fn find(&self, set: DiagramId) -> Option<usize>
        ensures { IfSome result (λ node. (d : StepDiagramsParts) → AreKnown d self.now.nodes.keys self.now.known.entries → IsNodeFor d self.now.nodes.keys set node) }
    {
        self.known.get(&set).copied()
    }

    // Stores the node of a diagram.
    fn remember(&mut self, set: DiagramId, node: usize) -> Result<(), NoMemory>
        ensures known { OnOk result ((d : StepDiagramsParts) → AreKnown d self.old.nodes.keys self.old.known.entries → IsNodeFor d self.old.nodes.keys set node → AreKnown d self.new.nodes.keys self.new.known.entries) }
        ensures nodes { self.new.nodes.keys ≡ self.old.nodes.keys }
    {
        self.known.insert(set, node)?;
        Ok(())
    }

    // Returns the node of a diagram that depends on no test.
    fn constant_node(
        &mut self,
        diagrams: &mut StepDiagrams,
        set: DiagramId,
    ) -> Result<usize, NoMemory>
        requires set { IsSetFrom diagrams.old diagrams.old.tests set }
        requires writer { IsNodeWriter diagrams.old self.old }
        ensures node { IfOk result (IsNodeFor diagrams.new self.new.nodes.keys set) }
        ensures writer { OnOk result (IsNodeWriter diagrams.new self.new) }
        ensures adds { OnOk result (AddsNodes self.old.nodes.keys self.new.nodes.keys) }
        ensures kept { KeepsSteps diagrams.old diagrams.new }
        ensures sound { AreStepDiagrams diagrams.new }
    {
        let always = diagrams.constant(true);
        if diagrams.entails(always, set)? {
            return self.node(NoteNode::True);
        }
        self.node(NoteNode::False)
    }

    // Returns the node of a diagram that does not depend on the tests before this one.
    fn node_from(
        &mut self,
        diagrams: &mut StepDiagrams,
        set: DiagramId,
        test: usize,
    ) -> Result<usize, NoMemory>
        requires set { IsSetFrom diagrams.old test set }
        requires test { test ≤ diagrams.old.tests }
        requires writer { IsNodeWriter diagrams.old self.old }
        ensures node { IfOk result (IsNodeFor diagrams.new self.new.nodes.keys set) }
        ensures writer { OnOk result (IsNodeWriter diagrams.new self.new) }
        ensures adds { OnOk result (AddsNodes self.old.nodes.keys self.new.nodes.keys) }
        ensures kept { KeepsSteps diagrams.old diagrams.new }
    {
        if let Some(node) = self.find(set) {
            return Ok(node);
        }
        if test >= diagrams.tests() {
            return self.constant_node(diagrams, set);
        }
        let low = diagrams.fix(set, test, Moment::Before, false)?;
        let high = diagrams.fix(set, test, Moment::Before, true)?;
        if low == high {
            return self.node_from(diagrams, low, test + 1);
        }
        let where_false = self.node_from(diagrams, low, test + 1)?;
        let where_true = self.node_from(diagrams, high, test + 1)?;
        let node = self.node(NoteNode::Branch(test, where_false, where_true))?;
        self.remember(set, node)?;
        Ok(node)
    }

    fn into_nodes(self, alloc: Global) -> Result<Vec<NoteNode>, NoMemory>
        ensures { IfOk result (λ v. v.items ≡ self.nodes.keys) }
    {
        let mut nodes = Vec::new(alloc);
        for node in self.nodes.as_slice() {
            nodes.push(*node)?;
        }
        Ok(nodes)
    }
}

// Returns the nodes of the sets, in order.
fn nodes_for(
    alloc: Global,
    writer: &mut NodeWriter,
    diagrams: &mut StepDiagrams,
    sets: &[DiagramId],
) -> Result<Vec<usize>, NoMemory>
    requires sets { AreSets diagrams.old sets.now }
    requires writer { IsNodeWriter diagrams.old writer.old }
    ensures nodes { IfOk result (λ v. AreNodesFor diagrams.new writer.new.nodes.keys sets.now v.items) }
    ensures writer { OnOk result (IsNodeWriter diagrams.new writer.new) }
    ensures kept { OnOk result (KeepsSteps diagrams.old diagrams.new) }
{
    let mut notes = Vec::new(alloc);
    for set in sets {
        let node = writer.node_from(diagrams, *set, 0)?;
        notes.push(node)?;
    }
    Ok(notes)
}

// Returns the notes of the sets.
pub(crate) fn notes_of_sets(
    alloc: Global,
    diagrams: &mut StepDiagrams,
    sets: &[DiagramId],
) -> Result<Notes, NoMemory>
    requires sets { AreSets diagrams.old sets.now }
    ensures notes { IfOk result (NotesSets diagrams.old sets.now) }
{
    let mut writer = NodeWriter::new(alloc);
    let notes = nodes_for(alloc, &mut writer, diagrams, sets)?;
    let nodes = writer.into_nodes(alloc)?;
    Ok(Notes::of_parts(nodes, notes))
}
