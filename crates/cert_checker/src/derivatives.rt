//! Symbolic partial derivatives (Antimirov 1996; with tests Pous 2015): the atoms that a term accepts, and the atoms at
//! which a step leads from it to another term. Terms are traversed in the order of their numbers, so each comes after
//! its parts.
ghost use Rattle.std.specs.Prelude.{◌≡◌, ◌<◌, ◌≤◌, ◌++◌, ◌∷◌, [], if◌then◌else◌, IfOk, OnOk, IsTrue, length, map};
ghost use Rattle.kat_model.specs.Trees.{one};
ghost use Rattle.kat_model.specs.Members.{Has};
ghost use Rattle.kat_model.specs.Steps.{dot, out};
ghost use Rattle.term_nodes.specs.NumberSets.{are_below, terms_of};
ghost use Rattle.cert_checker.specs.NodeTables.{AreTables, TablesGrow, TestsGrow, IsTest, IsTerm, HasValues, term_at, holds_at, nodes_in};
ghost use Rattle.cert_checker.specs.Marks.{IsMarked, IsPart, AreClosed, IsClosure};
ghost use Rattle.cert_checker.specs.Targets.{AreEntries, Represent, chosen, leads_to, set_leads_to, AreAcceptances, AreSteps, HasNoneElsewhere};

use crate::tables::Tables;
use certificate::{TermNode, TestNode};
use kat_model::NoMemory;
use std::collections::BTreeMap;

// Returns the test that is true where the next term accepts, given those of earlier terms.
fn acceptance(tables: &mut Tables, earlier: &[usize]) -> Result<usize, NoMemory>
    requires earlier { AreAcceptances tables.old earlier.now }
    requires next { IsTerm tables.old (length earlier.now) }
    ensures values { IfOk result (HasValues tables.new (out (term_at tables.old (length earlier.now)))) }
    ensures grows { TestsGrow tables.old tables.new }
{
    match tables.term_node(earlier.len()) {
        TermNode::Zero | TermNode::Act(_) => tables.constant(false),
        TermNode::One | TermNode::Star(_) => tables.constant(true),
        TermNode::Test(x) => Ok(x),
        TermNode::Sum(x, y) => tables.either(earlier[x], earlier[y]),
        TermNode::Seq(x, y) => tables.both(earlier[x], earlier[y]),
    }
}

/// Returns, for each term of the tables, the number of the test that is true at the atoms that the term accepts. Adds
/// no term.
pub(crate) fn acceptances(tables: &mut Tables) -> Result<Vec<usize>, NoMemory>
    ensures values { IfOk result (λ v. AreAcceptances tables.new v.items) }
    ensures count { IfOk result (λ v. length v.items ≡ length tables.old.terms) }
    ensures grows { TestsGrow tables.old tables.new }
{
    let mut guards = Vec::new(tables.alloc());
    for _ in 0..tables.term_count() {
        let guard = acceptance(tables, &guards)?;
        guards.push(guard)?;
    }
    Ok(guards)
}

/// Marks the parts of the marked terms, transitively: these are the terms whose steps are needed for the steps of the
/// marked terms. `marks` covers the first terms of the tables.
pub(crate) fn close_marks(tables: &Tables, marks: &mut [bool])
    requires { length marks.old ≤ length tables.now.terms }
    ensures { IsClosure tables.now marks.old marks.new }
{
    for term in (0..marks.len()).rev() {
        if marks[term] {
            match tables.term_node(term) {
                TermNode::Sum(x, y) | TermNode::Seq(x, y) => {
                    marks[x] = true;
                    marks[y] = true;
                }
                TermNode::Star(x) => marks[x] = true,
                TermNode::Zero | TermNode::One | TermNode::Test(_) | TermNode::Act(_) => {}
            }
        }
    }
}

/// Terms that steps may lead to, by number. Each has the number of its guard: the test that is true where a step leads
/// to the term.
pub(crate) type Targets = BTreeMap<usize, usize>;

/// Returns the empty product as a target, with the given guard.
pub(crate) fn empty_product(tables: &mut Tables, guard: usize) -> Result<Targets, NoMemory>
    requires { IsTest tables.old guard }
    ensures targets { IfOk result (λ t. Represent tables.new t.entries (λ atom. if holds_at tables.old guard atom then one ∷ [] else [])) }
    ensures grows { TablesGrow tables.old tables.new }
{
    let one = tables.term(TermNode::One)?;
    let mut targets = BTreeMap::new(tables.alloc());
    targets.insert(one, guard)?;
    Ok(targets)
}

// Adds a term, with the guard. If the term is a target already, its new guard is the disjunction of both guards.
fn add(tables: &mut Tables, to: &mut Targets, term: usize, guard: usize) -> Result<(), NoMemory>
    requires { AreEntries tables.old ((term, guard) ∷ to.old.entries) }
    ensures added { OnOk result (Represent tables.new to.new.entries (λ atom. chosen tables.old to.old.entries atom ++ (if holds_at tables.old guard atom then term_at tables.old term ∷ [] else []))) }
    ensures grows { TestsGrow tables.old tables.new }
{
    if let TestNode::False = tables.test_node(guard) {
        return Ok(());
    }
    let joined = match to.get(&term) {
        Some(other) => tables.either(*other, guard)?,
        None => guard,
    };
    to.insert(term, joined)?;
    Ok(())
}

// Adds the targets, each with the conjunction of its guard and `guard`.
fn add_all(
    tables: &mut Tables,
    targets: &mut Targets,
    more: &Targets,
    guard: usize,
) -> Result<(), NoMemory>
    requires entries { AreEntries tables.old targets.old.entries }
    requires others { AreEntries tables.old more.now.entries }
    requires is_test { IsTest tables.old guard }
    ensures added { OnOk result (Represent tables.new targets.new.entries (λ atom. chosen tables.old targets.old.entries atom ++ (if holds_at tables.old guard atom then chosen tables.old more.now.entries atom else []))) }
    ensures grows { TestsGrow tables.old tables.new }
{
    if let TestNode::False = tables.test_node(guard) {
        return Ok(());
    }
    for (term, when) in more.iter() {
        let both = tables.both(guard, *when)?;
        add(tables, targets, *term, both)?;
    }
    Ok(())
}

// Returns the targets, each followed by the term `after`.
fn continued(tables: &mut Tables, first: &Targets, after: usize) -> Result<Targets, NoMemory>
    requires tables { AreTables tables.old }
    requires entries { AreEntries tables.old first.now.entries }
    requires is_term { IsTerm tables.old after }
    ensures targets { IfOk result (λ t. Represent tables.new t.entries (λ atom. map (λ x. dot x (term_at tables.old after)) (chosen tables.old first.now.entries atom))) }
    ensures grows { TablesGrow tables.old tables.new }
{
    let mut targets = BTreeMap::new(tables.alloc());
    for (term, when) in first.iter() {
        let product = tables.dot(*term, after)?;
        add(tables, &mut targets, product, *when)?;
    }
    Ok(targets)
}

/// Returns the union of the targets of all members of a set, by the action or, without one, of outputs. Adds no term.
pub(crate) fn of_set(
    tables: &mut Tables,
    steps: &[Targets],
    set: &[usize],
    action: Option<usize>,
) -> Result<Targets, NoMemory>
    requires steps { AreSteps tables.old action (Has set.now) (map (λ t. t.entries) steps.now) }
    requires numbers { IsTrue (are_below (length steps.now) set.now) }
    ensures targets { IfOk result (λ t. Represent tables.new t.entries (λ atom. set_leads_to action (terms_of (nodes_in tables.old) set.now) atom)) }
    ensures grows { TestsGrow tables.old tables.new }
{
    let always = tables.constant(true)?;
    let mut targets = BTreeMap::new(tables.alloc());
    for number in set {
        add_all(tables, &mut targets, &steps[*number], always)?;
    }
    Ok(targets)
}

// Returns the targets of the next term, by the action or of outputs, given those of its parts.
fn step(
    tables: &mut Tables,
    accepting: &[usize],
    earlier: &[Targets],
    action: Option<usize>,
) -> Result<Targets, NoMemory>
    requires accepting { AreAcceptances tables.old accepting.now }
    requires count { length earlier.now < length accepting.now }
    requires next { IsTerm tables.old (length earlier.now) }
    requires parts { AreSteps tables.old action (IsPart tables.old (length earlier.now)) (map (λ t. t.entries) earlier.now) }
    ensures targets { IfOk result (λ t. Represent tables.new t.entries (λ atom. leads_to action (term_at tables.old (length earlier.now)) atom)) }
    ensures grows { TablesGrow tables.old tables.new }
{
    let term = earlier.len();
    let Some(act) = action else {
        return empty_product(tables, accepting[term]);
    };
    match tables.term_node(term) {
        TermNode::Zero | TermNode::One | TermNode::Test(_) => Ok(BTreeMap::new(tables.alloc())),
        TermNode::Act(a) if a == act => {
            let always = tables.constant(true)?;
            empty_product(tables, always)
        }
        TermNode::Act(_) => Ok(BTreeMap::new(tables.alloc())),
        TermNode::Sum(x, y) => of_set(tables, earlier, &[x, y], Some(act)),
        TermNode::Seq(x, y) => {
            let mut targets = continued(tables, &earlier[x], y)?;
            add_all(tables, &mut targets, &earlier[y], accepting[x])?;
            Ok(targets)
        }
        TermNode::Star(x) => continued(tables, &earlier[x], term),
    }
}

/// Returns, for each marked term, its targets by the action or, without one, the empty product where it accepts; other
/// terms have no targets. The marks must be closed (`close_marks`), one for each of the tests in `accepting`. Steps are
/// computed whole for each marked term. A certificate with a long chain of `E seq n n` has exponentially many, and one
/// of random sums and products thousands for each node; in what `decide` writes, a node has at most as many as the
/// closed sides have actions.
pub(crate) fn steps(
    tables: &mut Tables,
    accepting: &[usize],
    needed: &[bool],
    action: Option<usize>,
) -> Result<Vec<Targets>, NoMemory>
    requires accepting { AreAcceptances tables.old accepting.now }
    requires count { length accepting.now ≤ length tables.old.terms }
    requires marks { length needed.now ≡ length accepting.now }
    requires closed { AreClosed tables.old needed.now }
    ensures steps { IfOk result (λ v. AreSteps tables.new action (IsMarked needed.now) (map (λ t. t.entries) v.items)) }
    ensures others { IfOk result (λ v. HasNoneElsewhere needed.now (map (λ t. t.entries) v.items)) }
    ensures all { IfOk result (λ v. length v.items ≡ length needed.now) }
    ensures grows { TablesGrow tables.old tables.new }
{
    // The proof needs the rules of the tables.
    let _known = tables.term_count();
    let mut list = Vec::new(tables.alloc());
    for is_needed in needed {
        if *is_needed {
            let targets = step(tables, accepting, &list, action)?;
            list.push(targets)?;
        } else {
            list.push(BTreeMap::new(tables.alloc()))?;
        }
    }
    Ok(list)
}
