//! Passes over the pairs of a certificate: for the outputs and for each action, the condition on each pair.
ghost use Rattle.std.specs.Prelude.{◌≡◌, ◌<◌, ◌≤◌, ◌++◌, [], ℕ, None, Some, IsTrue, IfOk, OnOk, length, map};
ghost use Rattle.std.specs.Option.{option_map, option_map_or};
ghost use Rattle.certificate.specs.declared.nodes.Style.TheVariants.{UpTo};
ghost use Rattle.kat_model.specs.Members.{Has};
ghost use Rattle.kat_model.specs.Degrees.{short_hyps as short_hypotheses};
ghost use Rattle.kat_model.specs.Problems.{IsProblem};
ghost use Rattle.kat_model.specs.Steps.{set_out};
ghost use Rattle.term_nodes.specs.NumberSets.{are_below, terms_of};
ghost use Rattle.goal_forms.specs.ClosedTrees.{closed_trees};
ghost use Rattle.cert_checker.specs.NodeTables.{AreTables, TablesGrow, TestsGrow, IsTerm, HasValues, term_at, nodes_in, tables_of};
ghost use Rattle.cert_checker.specs.Marks.{IsMarked};
ghost use Rattle.cert_checker.specs.Targets.{AreAcceptances, AreSteps, set_leads_to};
ghost use Rattle.cert_checker.specs.Indices.{IndexParts, AreIndexed};
ghost use Rattle.cert_checker.specs.Roots.{AreClosedBelow, AreClosedNumbers, compared, counted_short};
ghost use Rattle.cert_checker.specs.Passes.{AddsMoves, AreNeeded, IsPass, forbidden_of, pass_of};

use crate::derivatives::{Targets, acceptances, close_marks, of_set, steps};
use crate::index::PairIndex;
use crate::queried::{begin_tests, end_tests};
use crate::question::ActionPass;
use crate::tables::Tables;
use certificate::{Cert, Pair, Style};
use goal_forms::{Closed, eliminate, is_short, long_problem};
use kat_model::{NoMemory, Problem};
use std::alloc::Global;
use std::marker::Model;

/// The state of a pass over a certificate: its nodes and the root terms of the problem, followed by the terms that
/// steps lead to; and its numbers.
pub(crate) struct Pass<'a> {
    pub problem: &'a Problem,
    pub cert: &'a Cert,
    pub index: &'a PairIndex,
    pub tables: Tables,
    pub parts: PassNumbers,
}

/// The numbers of a pass: those of the compared closed sides, of their universal term if there is one, and of the
/// hypotheses that count as short; the tests that are true where terms accept and where a short hypothesis does; and
/// marks of the terms whose steps are computed.
pub(crate) struct PassNumbers {
    pub left: usize,
    pub right: usize,
    pub universal: Option<usize>,
    pub shorts: Vec<usize>,
    pub acceptance_tests: Vec<usize>,
    pub forbidden_atoms: usize,
    pub needed_terms: Vec<bool>,
}

// Explicit, so that it is proved once and not at each end of each function that owns one.
impl Drop for Pass<'_> {
    fn drop(self) {
        let Pass {
            problem: _,
            cert: _,
            index: _,
            tables: _tables,
            parts: _parts,
        } = self;
    }
}

// Explicit, so that it is proved once and not at each end of each function that owns one.
impl Drop for PassNumbers {
    fn drop(self) {
        let PassNumbers {
            left: _,
            right: _,
            universal: _,
            shorts: _shorts,
            acceptance_tests: _acceptance_tests,
            forbidden_atoms: _,
            needed_terms: _needed_terms,
        } = self;
    }
}

impl<'a> Model for Pass<'a> {
    ghost use Rattle.std.specs.Coded.{codes};
    ghost use Rattle.kat_model.specs.Codes.{coded_term};
    ghost use Rattle.cert_checker.specs.Passes.{PassParts, IsPass};

    ghost Value = { PassParts };

    ghost coded = { Prim.hlevel (codes, coded_term) };

    ghost view = { λ p. record { problem = p.problem.now; cert = p.cert.now; index = p.index.now; tables = p.tables; left = p.parts.left; right = p.parts.right; universal = p.parts.universal; shorts = p.parts.shorts.items; acceptance_tests = p.parts.acceptance_tests.items; forbidden_atoms = p.parts.forbidden_atoms; needed_terms = p.parts.needed_terms.items } };
}

// Returns the closed sides that the style compares.
fn closed_sides(alloc: Global, problem: &Problem, style: Style) -> Result<Closed, NoMemory>
    ensures { IfOk result (λ c. closed_trees c ≡ compared style problem.now) }
{
    match style {
        Style::Plain | Style::UpTo => eliminate(alloc, problem),
        Style::Under => eliminate(alloc, &long_problem(alloc, problem)?),
    }
}

// Returns the numbers of closed sides, and of their universal term if there is one. The tables have one number for each
// tree of the certificate, so a side is found part by part, and no tree is compared with nodes.
fn sides_in(tables: &mut Tables, closed: &Closed) -> Result<(usize, usize, Option<usize>), NoMemory>
    requires tables { AreTables tables.old }
    requires below { AreClosedBelow tables.old.width (closed_trees closed.now) }
    ensures numbers { IfOk result (λ n. AreClosedNumbers (closed_trees closed.now) tables.new n.0 n.1 n.2) }
    ensures grows { TablesGrow tables.old tables.new }
{
    let left = tables.number_of(&closed.left)?;
    let right = tables.number_of(&closed.right)?;
    let universal = match &closed.universal {
        Some(term) => Some(tables.number_of(term)?),
        None => None,
    };
    Ok((left, right, universal))
}

// Returns the numbers of the short hypotheses.
fn all_short(tables: &mut Tables, problem: &Problem) -> Result<Vec<usize>, NoMemory>
    requires tables { AreTables tables.old }
    requires width { problem.now.tests ≡ tables.old.width }
    ensures terms { IfOk result (λ v. terms_of (nodes_in tables.new) v.items ≡ short_hypotheses problem.now) }
    ensures there { IfOk result (λ v. IsTrue (are_below (length tables.new.terms) v.items)) }
    ensures grows { TablesGrow tables.old tables.new }
{
    let mut numbers = Vec::new(tables.alloc());
    for hyp in problem.hyps() {
        if is_short(hyp) {
            numbers.push(tables.number_of(hyp)?)?;
        }
    }
    Ok(numbers)
}

// Returns the numbers of the hypotheses that count as short.
fn short_hyps(tables: &mut Tables, problem: &Problem, style: Style) -> Result<Vec<usize>, NoMemory>
    requires tables { AreTables tables.old }
    requires width { problem.now.tests ≡ tables.old.width }
    ensures terms { IfOk result (λ v. terms_of (nodes_in tables.new) v.items ≡ counted_short style problem.now) }
    ensures there { IfOk result (λ v. IsTrue (are_below (length tables.new.terms) v.items)) }
    ensures grows { TablesGrow tables.old tables.new }
{
    match style {
        Style::Plain | Style::UpTo => Ok(Vec::new(tables.alloc())),
        Style::Under => all_short(tables, problem),
    }
}

// Returns the test that is true where some member of the set accepts.
fn acceptance(tables: &mut Tables, tests: &[usize], set: &[usize]) -> Result<usize, NoMemory>
    requires tests { AreAcceptances tables.old tests.now }
    requires set { IsTrue (are_below (length tests.now) set.now) }
    requires there { length tests.now ≤ length tables.old.terms }
    ensures values { IfOk result (HasValues tables.new (set_out (terms_of (nodes_in tables.old) set.now))) }
    ensures grows { TestsGrow tables.old tables.new }
{
    let mut guard = tables.constant(false)?;
    for number in set {
        guard = tables.either(guard, tests[*number])?;
    }
    Ok(guard)
}

fn mark_all(marks: &mut [bool], set: &[usize])
    requires { IsTrue (are_below (length marks.old) set.now) }
    ensures kept { (k : ℕ) → IsMarked marks.old k → IsMarked marks.new k }
    ensures marked { (k : ℕ) → Has set.now k → IsMarked marks.new k }
    ensures count { length marks.new ≡ length marks.old }
{
    for number in set {
        marks[*number] = true;
    }
}

// Marks the terms whose steps are computed: those of listed pairs and short hypotheses, and their parts.
fn needed_terms(tables: &Tables, cert: &Cert, shorts: &[usize]) -> Result<Vec<bool>, NoMemory>
    requires shorts { IsTrue (are_below (length tables.now.terms) shorts.now) }
    requires pairs { length cert.now.term_nodes ≤ length tables.now.terms }
    ensures needed { IfOk result (λ v. AreNeeded tables.now cert.now shorts.now v.items) }
    ensures count { IfOk result (λ v. length v.items ≡ length tables.now.terms) }
{
    let mut marks = vec![in tables.alloc(); false; tables.term_count()]?;
    mark_all(&mut marks, shorts);
    for pair in cert.pairs() {
        mark_all(&mut marks, pair.left.as_slice());
        mark_all(&mut marks, pair.right.as_slice());
    }
    close_marks(tables, &mut marks);
    Ok(marks)
}

// Returns what a pass over the certificate needs, and adds its nodes to tables with only those of the certificate. The
// tables are borrowed here, where much can fail.
fn pass_numbers(
    tables: &mut Tables,
    problem: &Problem,
    cert: &Cert,
    closed: &Closed,
) -> Result<PassNumbers, NoMemory>
    requires problem { IsProblem problem.now }
    requires tables { AreTables tables.old }
    requires nodes { tables.old ≡ tables_of problem.now.tests cert.now }
    requires closed { closed_trees closed.now ≡ compared cert.now.style problem.now }
    ensures { IfOk result (λ n. (index : IndexParts) → AreIndexed index cert.now.pairs → IsPass (pass_of problem.now cert.now index tables.new n)) }
{
    let (left, right, universal) = sides_in(tables, closed)?;
    let shorts = short_hyps(tables, problem, cert.style())?;
    let acceptance_tests = acceptances(tables)?;
    let forbidden_atoms = acceptance(tables, &acceptance_tests, &shorts)?;
    let needed_terms = needed_terms(tables, cert, &shorts)?;
    Ok(PassNumbers {
        left,
        right,
        universal,
        shorts,
        acceptance_tests,
        forbidden_atoms,
        needed_terms,
    })
}

// Returns what a pass over the certificate needs. The closed sides are owned here, where little can fail.
fn numbers_of(tables: &mut Tables, problem: &Problem, cert: &Cert) -> Result<PassNumbers, NoMemory>
    requires problem { IsProblem problem.now }
    requires tables { AreTables tables.old }
    requires nodes { tables.old ≡ tables_of problem.now.tests cert.now }
    ensures { IfOk result (λ n. (index : IndexParts) → AreIndexed index cert.now.pairs → IsPass (pass_of problem.now cert.now index tables.new n)) }
{
    let closed = closed_sides(tables.alloc(), problem, cert.style())?;
    pass_numbers(tables, problem, cert, &closed)
}

// Adds for each target its guard and the test that is true where the target accepts.
fn forbid_targets(
    forbidden: &mut Vec<(usize, usize)>,
    targets: &Targets,
    outputs: &[usize],
) -> Result<(), NoMemory>
    requires { (e : ℕ × ℕ) → Has targets.now.entries e → e.0 < length outputs.now }
    ensures { OnOk result (forbidden.new.items ≡ forbidden.old.items ++ map (forbidden_of outputs.now) targets.now.entries) }
{
    for (term, guard) in targets.iter() {
        forbidden.push((*guard, outputs[*term]))?;
    }
    Ok(())
}

// Adds pairs of tests that are both true for the moves by the action that short hypotheses forbid.
fn forbid_moves(
    tables: &mut Tables,
    steps: &[Targets],
    shorts: &[usize],
    action: Option<usize>,
    forbidden: &mut Vec<(usize, usize)>,
) -> Result<(), NoMemory>
    requires steps { AreSteps tables.old action (Has shorts.now) (map (λ t. t.entries) steps.now) }
    requires numbers { IsTrue (are_below (length steps.now) shorts.now) }
    ensures added { OnOk result (AddsMoves tables.new (set_leads_to action (terms_of (nodes_in tables.old) shorts.now)) forbidden.old.items forbidden.new.items) }
    ensures grows { TestsGrow tables.old tables.new }
{
    let targets = of_set(tables, steps, shorts, action)?;
    let outputs = acceptances(tables)?;
    forbid_targets(forbidden, &targets, &outputs)
}

// Returns the style in which pairs match for the action or, without one, for outputs.
fn style_for(cert: &Cert, action: Option<usize>) -> Style
    ensures { result ≡ option_map_or (λ _. cert.now.style) action UpTo }
{
    match action {
        None => Style::UpTo,
        Some(_) => cert.style(),
    }
}

// Returns the pairs that may match for the action: none for outputs.
fn pairs_for(cert: &Cert, action: Option<usize>) -> &[Pair]
    ensures { result.now ≡ option_map_or (λ _. cert.now.pairs) action [] }
{
    match action {
        None => &[],
        Some(_) => cert.pairs(),
    }
}

// Returns the universal term for the action: none for outputs.
fn universal_for(parts: &PassNumbers, action: Option<usize>) -> Option<usize>
    ensures { result ≡ option_map_or (λ _. parts.now.universal) action None }
{
    match action {
        None => None,
        Some(_) => parts.universal,
    }
}

impl<'a> Pass<'a> {
    ghost use Rattle.std.specs.Prelude.{◌≡◌, ◌<◌, ℕ, IfOk, map};
    ghost use Rattle.kat_model.specs.Members.{Has};
    ghost use Rattle.term_nodes.specs.declared.TestNode.TheVariants.{Prim};
    ghost use Rattle.cert_checker.specs.Indices.{AreIndexed};
    ghost use Rattle.cert_checker.specs.Passes.{IsPass, PassGrows, IsActionPass, AreForbidden, StepsOf};

    /// Prepares the pass over this certificate, with the index of its pairs.
    pub fn of(
        alloc: Global,
        problem: &'a Problem,
        cert: &'a Cert,
        index: &'a PairIndex,
    ) -> Result<Pass<'a>, NoMemory>
        requires tests { (k : ℕ) → Has cert.now.test_nodes (Prim k) → k < problem.now.tests }
        requires index { AreIndexed index.now cert.now.pairs }
        ensures pass { IfOk result IsPass }
        ensures of { IfOk result (λ p. (p.problem ≡ problem.now) × (p.cert ≡ cert.now)) }
    {
        let mut tables = Tables::of(alloc, cert, problem.tests())?;
        let parts = numbers_of(&mut tables, problem, cert)?;
        Ok(Pass {
            problem,
            cert,
            index,
            tables,
            parts,
        })
    }

    // Returns pairs of tests that forbid a move: a move by the action or, without an action, an atom is allowed if and
    // only if no pair has its first test true at the beginning and its second at the end.
    fn forbidden(
        &mut self,
        steps: &[Targets],
        action: Option<usize>,
    ) -> Result<Vec<(usize, usize)>, NoMemory>
        requires pass { IsPass self.old }
        requires steps { StepsOf self.old.tables action self.old.needed_terms (map (λ t. t.entries) steps.now) }
        ensures forbidden { IfOk result (λ v. AreForbidden self.new.tables self.old.cert self.old.problem action v.items) }
        ensures grows { PassGrows self.old self.new }
    {
        let mut forbidden = Vec::new(self.tables.alloc());
        if self.parts.shorts.is_empty() {
            return Ok(forbidden);
        }
        let always = self.tables.constant(true)?;
        forbidden.push((self.parts.forbidden_atoms, always))?;
        if action.is_some() {
            forbidden.push((always, self.parts.forbidden_atoms))?;
            forbid_moves(
                &mut self.tables,
                steps,
                &self.parts.shorts,
                action,
                &mut forbidden,
            )?;
        }
        Ok(forbidden)
    }

    /// Returns the condition on each pair: on its outputs, or for the action. Outputs are a question of the same kind as
    /// steps: without an action a term leads to the empty product if it accepts, there are no pairs and no universal
    /// term, and the style is up to congruence.
    pub fn action_pass(&mut self, action: Option<usize>) -> Result<ActionPass<'a>, NoMemory>
        requires { IsPass self.old }
        ensures action_pass { IfOk result (IsActionPass self.new) }
        ensures action { IfOk result (λ t. t.action ≡ action) }
        ensures grows { PassGrows self.old self.new }
    {
        let steps = steps(
            &mut self.tables,
            &self.parts.acceptance_tests,
            &self.parts.needed_terms,
            action,
        )?;
        let forbidden = self.forbidden(&steps, action)?;
        let begin = begin_tests(&self.tables, &forbidden)?;
        let pairs = pairs_for(self.cert, action);
        let end = end_tests(&self.tables, &forbidden, pairs)?;
        Ok(ActionPass {
            action,
            steps,
            style: style_for(self.cert, action),
            pairs,
            index: self.index,
            universal: universal_for(&self.parts, action),
            forbidden,
            begin,
            end,
        })
    }
}
