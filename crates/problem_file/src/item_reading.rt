//! The actions on the parts of an item during reading.
ghost use Rattle.std.specs.Prelude.{◌≡◌, ◌≤◌, length, drop, Ok};
ghost use Rattle.text_parser.specs.Lexemes.{lexemes};
ghost use Rattle.text_parser.specs.Parsed.{Makes, Goes};
ghost use Rattle.text_parser.specs.ScopeParts.{IsIdentifier};
ghost use Rattle.problem_file.specs.ItemActions.{ItemActions};
ghost use Rattle.problem_file.specs.Numbers.{until};
ghost use Rattle.problem_file.specs.Items.{measure_term, measure_cond, measure_block};
ghost use Rattle.problem_file.specs.Working.Walks.{measured_of, sides_of, triple_of, Represents, Does};

use crate::phrase::{Measured, MeasuredSides, MeasuredTriple};
use text_parser::{TextFault, Token};

// The kinds of names that an item may declare.
#[derive(Clone, Copy)]
pub(crate) enum Declared {
    Test,
    Action,
    Var,
}

// The settings, each of which a text sets at most once, to a number.
#[derive(Clone, Copy)]
pub(crate) enum Setting {
    Rounds,
    Width,
}

// How a goal compares its sides.
#[derive(Clone, Copy)]
pub(crate) enum Comparison {
    Equal,
    Below,
}

// The actions on the parts of an item during reading. The reader calls the methods for the parts in text order, and at
// the end of each item with the measures of its phrases. A part that is refused ends the reading with that fault. `at`
// is the place of the item's keyword.
//
// Contracts see what the items so far have made as `state`, and the methods as `actions`. `memory` is what holds after
// a method returns `NoMemory`: `⊥` if none does.
pub(crate) trait ItemReading {
    // The measure of a phrase.
    type Measure: Copy;

    ghost S: { Type 0 };

    ghost memory: { Type 0 };

    ghost state: { Self → S };

    ghost actions: { ItemActions S Self.Measure };

    // Returns the measure of the term that begins at `from` and the index after it, or its first fault.
    fn measure_term(&self, toks: &[Token], from: usize) -> Result<(Self::Measure, usize), TextFault>
        ensures value { Represents (λ ts m. m) toks.now from result (measure_term actions (state self.now)) }
        ensures goes { Goes from (length toks.now) result };

    // The same for a condition in braces; `compares` is whether it may compare expressions.
    fn measure_cond(
        &self,
        toks: &[Token],
        from: usize,
        compares: bool,
    ) -> Result<(Self::Measure, usize), TextFault>
        ensures value { Represents (λ ts m. m) toks.now from result (measure_cond actions (state self.now) compares) }
        ensures goes { Goes from (length toks.now) result };

    // The same for a block of statements.
    fn measure_block(
        &self,
        toks: &[Token],
        from: usize,
    ) -> Result<(Self::Measure, usize), TextFault>
        ensures value { Represents (λ ts m. m) toks.now from result (measure_block actions (state self.now)) }
        ensures goes { Goes from (length toks.now) result };

    // Returns the measure of the program with that name, if a side of a goal may be a program.
    fn measure_program(&self, name: &str) -> Option<Self::Measure>
        ensures { result ≡ (actions).program (state self.now) name.now };

    // Declares a name.
    fn declare(&mut self, what: Declared, name: &Token) -> Result<(), TextFault>
        requires { IsIdentifier name.now.text.now }
        ensures { Does memory result (state self.new) (
            (actions).declare what (state self.old) name.now.at name.now.text.now
            ) };

    // Checks that a name is not declared yet and so may be defined.
    fn check_new(&self, name: &Token) -> Result<(), TextFault>
        ensures { Makes ⊥ (λ u. u) result (
            (actions).check_new (state self.now) name.now.at name.now.text.now
            ) };

    // Defines a name as a term. `check_new` must accept the name.
    fn define(
        &mut self,
        toks: &[Token],
        at: usize,
        name: &Token,
        term: Measured<Self::Measure>,
    ) -> Result<(), TextFault>
        requires identifier { IsIdentifier name.now.text.now }
        requires new { (actions).check_new (state self.old) name.now.at name.now.text.now ≡ Ok tt }
        ensures { Does memory result (state self.new) (
            (actions).define (state self.old) at name.now.text.now
            (measured_of (lexemes toks.now) term)
            ) };

    // Defines a name as a program. `check_new` must accept the name.
    fn define_prog(
        &mut self,
        toks: &[Token],
        at: usize,
        name: &Token,
        block: Measured<Self::Measure>,
    ) -> Result<(), TextFault>
        requires identifier { IsIdentifier name.now.text.now }
        requires new { (actions).check_new (state self.old) name.now.at name.now.text.now ≡ Ok tt }
        ensures { Does memory result (state self.new) (
            (actions).define_prog (state self.old) at name.now.text.now
            (measured_of (lexemes toks.now) block)
            ) };

    // Checks that an additional hypothesis may be stated.
    fn begin_hyp(&self, at: usize) -> Result<(), TextFault>
        ensures { Makes ⊥ (λ u. u) result ((actions).begin_hyp (state self.now) at) };

    // States that a term is 0.
    fn state_zero(
        &mut self,
        toks: &[Token],
        at: usize,
        term: Measured<Self::Measure>,
    ) -> Result<(), TextFault>
        ensures { Does memory result (state self.new) (
            (actions).state_zero (state self.old) at (measured_of (lexemes toks.now) term)
            ) };

    // States that a triple holds.
    fn state_triple(
        &mut self,
        toks: &[Token],
        at: usize,
        triple: MeasuredTriple<Self::Measure>,
    ) -> Result<(), TextFault>
        ensures { Does memory result (state self.new) (
            (actions).state_triple (state self.old) at (triple_of (lexemes toks.now) triple)
            ) };

    // Checks that the setting may be set.
    fn begin_setting(&self, what: Setting, at: usize) -> Result<(), TextFault>
        ensures { Makes ⊥ (λ u. u) result ((actions).begin_setting what (state self.now) at) };

    // Sets the setting to a number, which is at `place`.
    fn set(&mut self, what: Setting, place: usize, number: u64) -> Result<(), TextFault>
        ensures { Does memory result (state self.new) ((actions).set what (state self.old) place number) };

    // Checks that no number among the tokens of an item, from one index up to another, is too wide.
    fn check_numbers(&self, toks: &[Token], from: usize, end: usize) -> Result<(), TextFault>
        requires ordered { from ≤ end }
        requires within { end ≤ length toks.now }
        ensures { Makes ⊥ (λ u. u) result (
            (actions).check_numbers (state self.now)
            (until (drop from (lexemes toks.now)) (drop end (lexemes toks.now)))
            ) };

    // Checks that a goal may be stated.
    fn begin_goal(&self, at: usize) -> Result<(), TextFault>
        ensures { Makes ⊥ (λ u. u) result ((actions).begin_goal (state self.now) at) };

    // States the goal that compares two sides.
    fn pose_sides(
        &mut self,
        toks: &[Token],
        at: usize,
        comparison: Comparison,
        sides: MeasuredSides<Self::Measure>,
    ) -> Result<(), TextFault>
        ensures { Does memory result (state self.new) (
            (actions).pose_sides comparison (state self.old) at
            (sides_of (lexemes toks.now) sides)
            ) };

    // States the goal that a triple holds.
    fn pose_triple(
        &mut self,
        toks: &[Token],
        at: usize,
        triple: MeasuredTriple<Self::Measure>,
    ) -> Result<(), TextFault>
        ensures { Does memory result (state self.new) (
            (actions).pose_triple (state self.old) at (triple_of (lexemes toks.now) triple)
            ) };
}
