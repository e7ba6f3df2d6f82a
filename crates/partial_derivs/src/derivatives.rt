//! Derivatives of terms, and of sets of terms.
ghost use Rattle.std.specs.Prelude.{◌≡◌, ◌++◌, ◌∷◌, [], List, All, map, IfOk, IfSome, OnOk};
ghost use Rattle.kat_model.specs.Trees.{Term, sum, product, star};
ghost use Rattle.kat_model.specs.Steps.{set_out, set_next};
ghost use Rattle.term_nodes.specs.NodeLists.{NodeParts};
ghost use Rattle.term_nodes.specs.NodeTrees.{tree_at};
ghost use Rattle.test_diagrams.specs.Functions.{DiagramsParts};
ghost use Rattle.partial_derivs.specs.Moves.{IsTermOf, IsDerivativeOf, IsStepsOf, Keeps};
ghost use Rattle.partial_derivs.specs.Working.Unions.{IsUnionBy, IsUnionOfIds};
ghost use Rattle.partial_derivs.specs.Tables.{IsRight, AreRight};

use crate::forms::{action_steps, constant_steps, product_steps, star_steps, test_steps};
use crate::moves::Steps;
use crate::sets::{Union, sum_steps};
use indexmap::IndexMap;
use kat_model::NoMemory;
use std::alloc::Global;
use term_store::{Shape, Store, TermId};
use test_diagrams::Diagrams;

/// The derivatives computed so far, including those of parts of terms. A table belongs to the store and the collection
/// of diagrams that filled it.
pub struct Derivatives {
    table: IndexMap<TermId, Steps>,
}

// Explicit, so that it is proved once and not at each end of each function that owns one.
impl Drop for Derivatives {
    fn drop(self) {
        let Derivatives { table: _table } = self;
    }
}

impl Derivatives {
    /// Creates an empty table, which is valid for each store and collection. Allocates nothing.
    pub fn new(alloc: Global) -> Derivatives
        ensures { (store : NodeParts) (d : DiagramsParts) → AreRight store d result }
    {
        Derivatives {
            table: IndexMap::new(alloc),
        }
    }

    /// Returns the steps of a set of terms. Uses the derivatives in the table and adds the missing ones. Recurses to
    /// the depth of the terms. Fails only when out of memory; extra nodes, diagrams and derivatives may remain then.
    pub fn step(
        &mut self,
        alloc: Global,
        store: &mut Store,
        diagrams: &mut Diagrams,
        terms: &[TermId],
    ) -> Result<Steps, NoMemory>
        requires terms { All (IsTermOf store.old diagrams.old.tests) terms.now }
        requires right { AreRight store.old diagrams.old self.old }
        ensures steps { IfOk result (IsStepsOf store.new diagrams.new (map (tree_at store.old) terms.now)) }
        ensures right { AreRight store.new diagrams.new self.new }
        ensures kept { Keeps store.old store.new diagrams.old diagrams.new }
    {
        let mut whole = Union::new(alloc, diagrams);
        for term in terms {
            self.add_term(alloc, store, diagrams, &mut whole, *term)?;
        }
        whole.steps(alloc)
    }

    // Adds the steps of a term to the union.
    fn add_term(
        &mut self,
        alloc: Global,
        store: &mut Store,
        diagrams: &mut Diagrams,
        whole: &mut Union,
        term: TermId,
    ) -> Result<(), NoMemory>
        requires term { IsTermOf store.old diagrams.old.tests term }
        requires right { AreRight store.old diagrams.old self.old }
        requires ids { IsUnionOfIds diagrams.old whole.old }
        ensures ids { OnOk result (IsUnionOfIds diagrams.new whole.new) }
        ensures added { OnOk result ((es : List Term)
            → IsUnionBy store.old diagrams.old (set_out es) (set_next es) whole.old
            → IsUnionBy store.new diagrams.new (set_out (es ++ tree_at store.old term ∷ [])) (set_next (es ++ tree_at store.old term ∷ [])) whole.new) }
        ensures right { AreRight store.new diagrams.new self.new }
        ensures kept { Keeps store.old store.new diagrams.old diagrams.new }
    {
        let steps = self.steps_of(alloc, store, diagrams, term)?;
        whole.add(diagrams, &steps)
    }

    // Returns the derivative of the term if the table has it.
    fn find_steps(&self, alloc: Global, term: TermId) -> Result<Option<Steps>, NoMemory>
        ensures { IfOk result (λ found. IfSome found (λ steps. (store : NodeParts) (d : DiagramsParts)
            → AreRight store d self.now → IsDerivativeOf store d (tree_at store term) steps)) }
    {
        match self.table.get(&term) {
            Some(steps) => Ok(Some(steps.copy(alloc)?)),
            None => Ok(None),
        }
    }

    // Adds a derivative to the table.
    fn note(&mut self, alloc: Global, term: TermId, steps: &Steps) -> Result<(), NoMemory>
        ensures { (store : NodeParts) (d : DiagramsParts)
            → IsRight store d term steps.now → AreRight store d self.old → AreRight store d self.new }
    {
        let copy = steps.copy(alloc)?;
        self.table.insert(term, copy)?;
        Ok(())
    }

    // Returns the derivative of the term, from the table or computed and added to it.
    #[cycle(derive)]
    fn steps_of(
        &mut self,
        alloc: Global,
        store: &mut Store,
        diagrams: &mut Diagrams,
        term: TermId,
    ) -> Result<Steps, NoMemory>
        requires term { IsTermOf store.old diagrams.old.tests term }
        requires right { AreRight store.old diagrams.old self.old }
        ensures steps { IfOk result (IsDerivativeOf store.new diagrams.new (tree_at store.old term)) }
        ensures right { AreRight store.new diagrams.new self.new }
        ensures kept { Keeps store.old store.new diagrams.old diagrams.new }
    {
        if let Some(steps) = self.find_steps(alloc, term)? {
            return Ok(steps);
        }
        let steps = self.derive(alloc, store, diagrams, term)?;
        self.note(alloc, term, &steps)?;
        Ok(steps)
    }

    // Computes the derivative of the term from those of its parts.
    #[cycle(derive)]
    fn derive(
        &mut self,
        alloc: Global,
        store: &mut Store,
        diagrams: &mut Diagrams,
        term: TermId,
    ) -> Result<Steps, NoMemory>
        requires term { IsTermOf store.old diagrams.old.tests term }
        requires right { AreRight store.old diagrams.old self.old }
        ensures steps { IfOk result (IsDerivativeOf store.new diagrams.new (tree_at store.old term)) }
        ensures right { AreRight store.new diagrams.new self.new }
        ensures kept { Keeps store.old store.new diagrams.old diagrams.new }
    {
        match store.shape(term) {
            Shape::Zero => Ok(constant_steps(alloc, diagrams, false)),
            Shape::One => Ok(constant_steps(alloc, diagrams, true)),
            Shape::Test(test) => test_steps(alloc, store, diagrams, test),
            Shape::Act(act) => action_steps(alloc, store, diagrams, act),
            Shape::Sum(e, f) => self.derive_sum(alloc, store, diagrams, e, f),
            Shape::Seq(e, f) => self.derive_product(alloc, store, diagrams, e, f),
            Shape::Star(e) => self.derive_star(alloc, store, diagrams, e, term),
        }
    }

    // Computes the derivative of the sum of two terms.
    #[cycle(derive)]
    fn derive_sum(
        &mut self,
        alloc: Global,
        store: &mut Store,
        diagrams: &mut Diagrams,
        e: TermId,
        f: TermId,
    ) -> Result<Steps, NoMemory>
        requires first { IsTermOf store.old diagrams.old.tests e }
        requires second { IsTermOf store.old diagrams.old.tests f }
        requires right { AreRight store.old diagrams.old self.old }
        ensures steps { IfOk result (IsDerivativeOf store.new diagrams.new (sum (tree_at store.old e) (tree_at store.old f))) }
        ensures right { AreRight store.new diagrams.new self.new }
        ensures kept { Keeps store.old store.new diagrams.old diagrams.new }
    {
        let first = self.steps_of(alloc, store, diagrams, e)?;
        let second = self.steps_of(alloc, store, diagrams, f)?;
        sum_steps(alloc, diagrams, &first, &second)
    }

    // Computes the derivative of the product of two terms.
    #[cycle(derive)]
    fn derive_product(
        &mut self,
        alloc: Global,
        store: &mut Store,
        diagrams: &mut Diagrams,
        e: TermId,
        f: TermId,
    ) -> Result<Steps, NoMemory>
        requires first { IsTermOf store.old diagrams.old.tests e }
        requires second { IsTermOf store.old diagrams.old.tests f }
        requires right { AreRight store.old diagrams.old self.old }
        ensures steps { IfOk result (IsDerivativeOf store.new diagrams.new (product (tree_at store.old e) (tree_at store.old f))) }
        ensures right { AreRight store.new diagrams.new self.new }
        ensures kept { Keeps store.old store.new diagrams.old diagrams.new }
    {
        let first = self.steps_of(alloc, store, diagrams, e)?;
        let second = self.steps_of(alloc, store, diagrams, f)?;
        product_steps(alloc, store, diagrams, &first, &second, f)
    }

    // Computes the derivative of the star of `e`. `own` is the id of the star.
    #[cycle(derive)]
    fn derive_star(
        &mut self,
        alloc: Global,
        store: &mut Store,
        diagrams: &mut Diagrams,
        e: TermId,
        own: TermId,
    ) -> Result<Steps, NoMemory>
        requires inner { IsTermOf store.old diagrams.old.tests e }
        requires own { IsTermOf store.old diagrams.old.tests own }
        requires tree { tree_at store.old own ≡ star (tree_at store.old e) }
        requires right { AreRight store.old diagrams.old self.old }
        ensures steps { IfOk result (IsDerivativeOf store.new diagrams.new (star (tree_at store.old e))) }
        ensures right { AreRight store.new diagrams.new self.new }
        ensures kept { Keeps store.old store.new diagrams.old diagrams.new }
    {
        let inner = self.steps_of(alloc, store, diagrams, e)?;
        star_steps(alloc, store, diagrams, &inner, own)
    }
}

/// Returns the steps of a set of terms. They accept an atom if some term of the set accepts it, and their moves lead
/// exactly to the terms to which the set steps. Recurses to the depth of the terms. Fails only when out of memory;
/// extra nodes and diagrams may remain then.
pub fn step(
    alloc: Global,
    store: &mut Store,
    diagrams: &mut Diagrams,
    terms: &[TermId],
) -> Result<Steps, NoMemory>
    requires terms { All (IsTermOf store.old diagrams.old.tests) terms.now }
    ensures steps { IfOk result (IsStepsOf store.new diagrams.new (map (tree_at store.old) terms.now)) }
    ensures kept { Keeps store.old store.new diagrams.old diagrams.new }
{
    let mut derivatives = Derivatives::new(alloc);
    derivatives.step(alloc, store, diagrams, terms)
}
