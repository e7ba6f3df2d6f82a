//! A certificate during reading.
ghost use Rattle.std.specs.Prelude.{◌≡◌, ◌&&◌, ◌++◌, false, Some};
ghost use Rattle.term_nodes.specs.Nodes.{test_parts, term_parts, tests_of_term};
ghost use Rattle.term_nodes.specs.NumberSets.{are_below};
ghost use Rattle.certificate.specs.Certs.{CertParts};
ghost use Rattle.certificate.specs.Texts.{maybe_one};
ghost use Rattle.certificate.specs.Faults.{no_entries, has_tests, is_section_allowed, is_wide, names_earlier, entry_format};
ghost use Rattle.line_format.specs.KnownLines.{Distinguishes, IsReflexive};
ghost use Rattle.certificate.specs.Working.Readings.{draft_parts, IsDraft, MayBeAdded, AddsEntry, unless_memory, is_given, is_passed_on};
ghost use Rattle.certificate.specs.declared.entry.Entry.{Entry};
ghost use Rattle.certificate.specs.declared.entry.Entry.TheVariants.{TestLine, TermLine, PairLine};

use crate::cert::Cert;
use crate::entry::{Entry, LineFault, Section, read_entry};
use crate::evidence::{Evidence, EvidenceFault};
use crate::nodes::{Pair, Style, TermNode, TestNode};
use line_format::LineDraft;
use std::alloc::Global;
use std::collections::BTreeSet;
use term_nodes::is_ascending;

// The entries so far. The sets contain the nodes as well, for a fast search of equal nodes.
pub(crate) struct Draft {
    style: Style,
    test_nodes: Vec<TestNode>,
    term_nodes: Vec<TermNode>,
    pairs: Vec<Pair>,
    known_tests: BTreeSet<TestNode>,
    known_terms: BTreeSet<TermNode>,
}

// Explicit, so that it is proved once and not at each end of each function that owns one.
impl Drop for Draft {
    fn drop(self) {
        let Draft {
            style: _,
            test_nodes: _test_nodes,
            term_nodes: _term_nodes,
            pairs: _pairs,
            known_tests: _known_tests,
            known_terms: _known_terms,
        } = self;
    }
}

// Does nothing. Its contract states the properties of the orders in which the sets keep nodes.
fn node_orders()
    ensures tests { Distinguishes ⟦<TestNode as Ord>⟧.cmp }
    ensures tests_own { IsReflexive ⟦<TestNode as Ord>⟧.cmp }
    ensures terms { Distinguishes ⟦<TermNode as Ord>⟧.cmp }
    ensures terms_own { IsReflexive ⟦<TermNode as Ord>⟧.cmp }
{}

fn all_below(numbers: &[usize], count: usize) -> bool
    ensures { result ≡ are_below count numbers.now }
{
    numbers.iter().all(|k| *k < count)
}

// Whether the number, if there is one, is below the count.
fn is_below(number: Option<usize>, count: usize) -> bool
    ensures { result ≡ are_below count (maybe_one number) }
{
    match number {
        None => true,
        Some(k) => k < count,
    }
}

// Whether pairs of the style have tests.
fn has_tests(style: Style) -> bool
    ensures { result ≡ has_tests style }
{
    match style {
        Style::Plain | Style::UpTo => false,
        Style::Under => true,
    }
}

fn test_names_earlier(node: TestNode, count: usize) -> bool
    ensures { result ≡ are_below count (test_parts node) }
{
    match node {
        TestNode::False | TestNode::True | TestNode::Prim(_) => true,
        TestNode::Not(x) => x < count,
        TestNode::And(x, y) | TestNode::Or(x, y) => x < count && y < count,
    }
}

fn term_names_earlier(node: TermNode, tests: usize, terms: usize) -> bool
    ensures { result ≡ (are_below tests (tests_of_term node) && are_below terms (term_parts node)) }
{
    match node {
        TermNode::Zero | TermNode::One | TermNode::Act(_) => true,
        TermNode::Test(x) => x < tests,
        TermNode::Sum(x, y) | TermNode::Seq(x, y) => x < terms && y < terms,
        TermNode::Star(x) => x < terms,
    }
}

impl Draft {
    pub(crate) fn new(alloc: Global, style: Style) -> Draft
        ensures entries { draft_parts result ≡ no_entries style }
        ensures draft { IsDraft result }
    {
        Draft {
            style,
            test_nodes: Vec::new(alloc),
            term_nodes: Vec::new(alloc),
            pairs: Vec::new(alloc),
            known_tests: BTreeSet::new(alloc),
            known_terms: BTreeSet::new(alloc),
        }
    }

    fn is_section_allowed(&self, section: Section) -> bool
        ensures { result ≡ is_section_allowed (draft_parts self.now) section }
    {
        match section {
            Section::Tests => self.term_nodes.is_empty() && self.pairs.is_empty(),
            Section::Terms => self.pairs.is_empty(),
            Section::Pairs => !has_tests(self.style),
            Section::TestedPairs => has_tests(self.style),
        }
    }

    fn names_earlier(&self, entry: &Entry) -> bool
        ensures { result ≡ names_earlier (draft_parts self.now) entry.now }
    {
        let tests = self.test_nodes.len();
        let terms = self.term_nodes.len();
        match entry {
            Entry::TestLine(node) => test_names_earlier(*node, tests),
            Entry::TermLine(node) => term_names_earlier(*node, tests, terms),
            Entry::PairLine(pair) => {
                is_below(pair.test, tests)
                    && all_below(pair.left.as_slice(), terms)
                    && all_below(pair.right.as_slice(), terms)
            }
        }
    }

    fn add_test(&mut self, node: TestNode, number: u64) -> Result<(), EvidenceFault>
        requires draft { IsDraft self.old }
        requires tested { MayBeAdded self.old (TestLine node) }
        ensures { AddsEntry self.old number (Some (TestLine node)) self.new result }
    {
        node_orders();
        let is_new = self.known_tests.insert(node)?;
        if !is_new {
            return Err(EvidenceFault::DoubleNode(number));
        }
        self.test_nodes.push(node)?;
        Ok(())
    }

    fn add_term(&mut self, node: TermNode, number: u64) -> Result<(), EvidenceFault>
        requires draft { IsDraft self.old }
        requires tested { MayBeAdded self.old (TermLine node) }
        ensures { AddsEntry self.old number (Some (TermLine node)) self.new result }
    {
        node_orders();
        let is_new = self.known_terms.insert(node)?;
        if !is_new {
            return Err(EvidenceFault::DoubleNode(number));
        }
        self.term_nodes.push(node)?;
        Ok(())
    }

    fn add_pair(&mut self, pair: Pair, number: u64) -> Result<(), EvidenceFault>
        requires draft { IsDraft self.old }
        requires tested { MayBeAdded self.old (PairLine pair) }
        ensures { AddsEntry self.old number (Some (PairLine pair)) self.new result }
    {
        if !is_ascending(pair.left.as_slice()) {
            return Err(EvidenceFault::SetOrder(number));
        }
        if !is_ascending(pair.right.as_slice()) {
            return Err(EvidenceFault::SetOrder(number));
        }
        self.pairs.push(pair)?;
        Ok(())
    }

    fn add_entry(&mut self, entry: Entry, number: u64) -> Result<(), EvidenceFault>
        requires draft { IsDraft self.old }
        requires narrow { is_wide entry ≡ false }
        ensures { AddsEntry self.old number (Some entry) self.new result }
    {
        if !self.is_section_allowed(entry.section()) {
            return Err(EvidenceFault::Line(number));
        }
        if !self.names_earlier(&entry) {
            return Err(EvidenceFault::NodeOrder(number));
        }
        match entry {
            Entry::TestLine(node) => self.add_test(node, number),
            Entry::TermLine(node) => self.add_term(node, number),
            Entry::PairLine(pair) => self.add_pair(pair, number),
        }
    }
}

impl LineDraft for Draft {
    type Value = Evidence;

    type Fault = EvidenceFault;

    ghost L = { Entry };

    ghost D = { CertParts };

    ghost format = { entry_format };

    ghost unless = { unless_memory };

    ghost parts = { draft_parts };

    ghost Keeps = { IsDraft };

    fn add(&mut self, alloc: Global, line: &[u8], number: u64) -> Result<(), EvidenceFault> {
        match read_entry(alloc, line) {
            Ok(entry) => self.add_entry(entry, number),
            Err(LineFault::NoMemory) => Err(EvidenceFault::NoMemory),
            Err(LineFault::Form) => Err(EvidenceFault::Line(number)),
            Err(LineFault::Wide(section)) => {
                if self.is_section_allowed(section) {
                    return Err(EvidenceFault::NumberTooWide(number));
                }
                Err(EvidenceFault::Line(number))
            }
        }
    }

    fn finish(self) -> Evidence {
        let Draft {
            style,
            test_nodes,
            term_nodes,
            pairs,
            known_tests: _,
            known_terms: _,
        } = self;
        Evidence::Equal(Cert::of_parts(style, test_nodes, term_nodes, pairs))
    }

    fn truncated() -> EvidenceFault {
        EvidenceFault::Truncated
    }

    fn trailing(number: u64) -> EvidenceFault {
        EvidenceFault::Trailing(number)
    }

    ghost is_given = { is_given };

    ghost is_passed_on = { is_passed_on };
}
