//! The state that each item of a text makes, after the syntax of the whole text was checked.
ghost use Rattle.std.specs.Prelude.{◌≡◌, ◌+◌, min, ◌^◌, ◌-◌, ◌≤◌, length, drop, nat_lt, Ok, IfOk, None, option_map, option_and_then};
ghost use Rattle.kat_model.specs.Stores.{modulus};
ghost use Rattle.kat_model.specs.Trees.{kat_tree};
ghost use Rattle.text_parser.specs.Lexemes.{lexemes};
ghost use Rattle.text_parser.specs.Parsed.{Makes};
ghost use Rattle.text_parser.specs.ScopeParts.{IsIdentifier};
ghost use Rattle.while_lang.specs.NamedProgs.{prog_parts};
ghost use Rattle.while_lang.specs.Files.{prog_named};
ghost use Rattle.problem_file.specs.Files.{State, width_with, check_new, check_size, width_of, state_hyp, state_goal};
ghost use Rattle.problem_file.specs.Files.{has_begun, begin_rounds, begin_width, set_rounds, set_width};
ghost use Rattle.problem_file.specs.Numbers.{until, check_numbers};
ghost use Rattle.problem_file.specs.Items.{lone_name};
ghost use Rattle.problem_file.specs.Making.{program_extent, program_or, count, count_sides, count_parts, built_term, built_side};
ghost use Rattle.problem_file.specs.Making.{built_triple, built_goal, compared, define_term, define_prog};
ghost use Rattle.problem_file.specs.Making.{state_zero, state_triple, pose_sides, pose_triple, making};
ghost use Rattle.while_lang.specs.Trees.{side_tree, goal_tree};
ghost use Rattle.problem_file.specs.Working.NumberSteps.{check_first};
ghost use Rattle.problem_file.specs.Working.Walks.{measured_of, sides_of, triple_of, Builds};
ghost use Rattle.problem_file.specs.Working.States.{state_of, Leaves};

use crate::item_reader::ItemReader;
use crate::item_reading::{Comparison, Declared, ItemReading, Setting};
use crate::names::lone_name;
use crate::phrase::{Measured, MeasuredSides, MeasuredTriple};
use crate::triple::triple_term;
use kat_model::{
    Cond, Items, Kat, MAX_HYPS, MAX_OPEN, MAX_ROUNDS, MAX_TERM_NODES, NoMemory, Width,
};
use std::alloc::Global;
use text_parser::{
    Extent, Terminal, TextFault, Token, build_cond, build_term, measure_cond, measure_term,
    terminal_at,
};
use while_lang::{Goal, NamedProg, Side, build_block, measure_block, prog_meant};

// Checks that an item, or a part of a goal, is within the limit of nodes; `TooLarge` at `at` past it.
fn check_size(at: usize, nodes: u64) -> Result<(), TextFault>
    ensures { result ≡ check_size at nodes }
{
    if nodes > MAX_TERM_NODES {
        return Err(TextFault::TooLarge(at));
    }
    Ok(())
}

// Returns the total number of nodes of the three phrases, saturated at 2^64 - 1.
fn nodes_of(triple: MeasuredTriple<Extent>) -> u64
    ensures { let pre = triple.pre.measure.nodes in
        let body = triple.body.measure.nodes in
        result ≡ min (pre + body + triple.post.measure.nodes) (2 ^ 64 - 1) }
{
    triple
        .pre
        .measure
        .nodes
        .saturating_add(triple.body.measure.nodes)
        .saturating_add(triple.post.measure.nodes)
}

fn name_bytes(alloc: Global, name: &Token) -> Result<Items<u8>, NoMemory>
    ensures { IfOk result (λ bytes. bytes ≡ name.now.text.now) }
{
    Ok(Items::of(name.text.as_bytes().to_vec(alloc)?))
}

// Returns the size and the depth of a program as a side.
fn program_extent(named: &NamedProg) -> Extent
    ensures { result ≡ program_extent (prog_parts named.now) }
{
    Extent {
        nodes: named.size(),
        test_nodes: 0,
        nesting: named.nesting.min(MAX_OPEN + 1),
    }
}

fn width_with(bits: u64) -> Option<Width>
    ensures { result ≡ width_with bits }
{
    match bits {
        8 => Some(Width::W8),
        16 => Some(Width::W16),
        32 => Some(Width::W32),
        64 => Some(Width::W64),
        _ => None,
    }
}

// Whether the number is below 2 to the width.
fn is_narrow(width: Width, n: u64) -> bool
    ensures { result ≡ nat_lt n (modulus width) }
{
    match width {
        Width::W8 => n < 0x100,
        Width::W16 => n < 0x1_0000,
        Width::W32 => n < 0x1_0000_0000,
        Width::W64 => true,
    }
}

// Checks that the token at an index is not a number of 2 to the width or more.
fn check_number(width: Width, toks: &[Token], i: usize) -> Result<(), TextFault>
    ensures { Makes ⊥ (λ u. u) result (check_first width (drop i (lexemes toks.now))) }
{
    let Some((terminal, at)) = terminal_at(toks, i) else {
        return Ok(());
    };
    match terminal {
        Terminal::Number(n) => {
            if !is_narrow(width, n) {
                return Err(TextFault::NumberTooWide(at));
            }
            Ok(())
        }
        Terminal::WideNumber => Err(TextFault::NumberTooWide(at)),
        _ => Ok(()),
    }
}

// Checks that no token from one index up to another is such a number.
fn check_numbers(width: Width, toks: &[Token], from: usize, end: usize) -> Result<(), TextFault>
    requires ordered { from ≤ end }
    requires within { end ≤ length toks.now }
    ensures { Makes ⊥ (λ u. u) result (
        check_numbers width (until (drop from (lexemes toks.now)) (drop end (lexemes toks.now)))
        ) }
{
    let mut at = from;
    'numbers: while at < end {
        check_number(width, toks, at)?;
        at += 1;
    }
    Ok(())
}

fn comparison_goal(comparison: Comparison, left: Side, right: Side) -> Goal
    ensures { goal_tree result ≡ compared comparison (side_tree left) (side_tree right) }
{
    match comparison {
        Comparison::Equal => Goal::Equal(left, right),
        Comparison::Below => Goal::Below(left, right),
    }
}

impl ItemReader {
    // Returns the program that a name stands for.
    fn prog_named(&self, name: &str) -> Option<&NamedProg>
        ensures { option_map (λ n. prog_parts n.now) result
            ≡ prog_named (state_of self.now).world (state_of self.now).progs name.now }
    {
        prog_meant(&self.progs, self.scope.find(name))
    }

    // Counts an item of `nodes` nodes; `TooLarge` at `at` past the limit of the item or of the file.
    fn count(&mut self, at: usize, nodes: u64) -> Result<(), TextFault>
        ensures scope { self.new.scope ≡ self.old.scope }
        ensures value { Leaves result self.new (count (state_of self.old) at nodes) }
    {
        check_size(at, nodes)?;
        self.grow(at, nodes)
    }

    // Counts the nodes of the sides of a goal.
    fn count_sides(
        &mut self,
        toks: &[Token],
        at: usize,
        sides: MeasuredSides<Extent>,
    ) -> Result<(), TextFault>
        ensures { Leaves result self.new (
            count_sides (state_of self.old) at (sides_of (lexemes toks.now) sides)
            ) }
    {
        let left = sides.left.measure.nodes;
        let right = sides.right.measure.nodes;
        check_size(at, left)?;
        check_size(at, right)?;
        self.grow(at, left.saturating_add(right))
    }

    // Counts the nodes of the conditions and the side of a goal that is a triple.
    fn count_parts(
        &mut self,
        toks: &[Token],
        at: usize,
        triple: MeasuredTriple<Extent>,
    ) -> Result<(), TextFault>
        ensures { Leaves result self.new (
            count_parts (state_of self.old) at (triple_of (lexemes toks.now) triple)
            ) }
    {
        check_size(at, triple.pre.measure.nodes)?;
        check_size(at, triple.body.measure.nodes)?;
        check_size(at, triple.post.measure.nodes)?;
        self.grow(at, nodes_of(triple))
    }

    // Counts the nodes of the term of a stated triple.
    fn count_triple(&mut self, at: usize, triple: MeasuredTriple<Extent>) -> Result<(), TextFault>
        ensures { let pre = triple.pre.measure.nodes in
            let body = triple.body.measure.nodes in
            Leaves result self.new (
            count (state_of self.old) at (pre + body + triple.post.measure.nodes + 5)
            ) }
    {
        self.count(at, nodes_of(triple).saturating_add(5))
    }

    // Returns the program that a side names, if the side is only a program's name.
    fn lone_prog(&self, toks: &[Token], from: usize) -> Option<&NamedProg>
        ensures { option_map (λ n. prog_parts n.now) result
            ≡ option_and_then (prog_named (state_of self.now).world (state_of self.now).progs) (lone_name (drop from (lexemes toks.now))) }
    {
        match lone_name(toks, from) {
            Some(name) => self.prog_named(name),
            None => None,
        }
    }

    fn term_side(&self, toks: &[Token], from: usize) -> Result<Side, TextFault>
        ensures { Makes (Unit {0}) side_tree result (program_or None (built_term (state_of self.now) (drop from (lexemes toks.now)))) }
    {
        let (term, _) = build_term(self.alloc, toks, from, 0, &self.scope)?;
        Ok(Side::Term(term))
    }

    // Builds the side that begins at `from`: the program that it names, or its term.
    fn build_side(&self, toks: &[Token], from: usize) -> Result<Side, TextFault>
        ensures { Makes (Unit {0}) side_tree result (built_side (state_of self.now) (drop from (lexemes toks.now))) }
    {
        match self.lone_prog(toks, from) {
            Some(named) => Ok(Side::Prog(named.prog.copy(self.alloc)?)),
            None => self.term_side(toks, from),
        }
    }

    // Builds the trees of the phrases of a stated triple.
    fn build_triple(
        &self,
        toks: &[Token],
        triple: MeasuredTriple<Extent>,
    ) -> Result<(Cond, Kat, Cond), TextFault>
        ensures { Builds result (
            built_triple (state_of self.now) (triple_of (lexemes toks.now) triple)
            ) }
    {
        let (pre, _) = build_cond(self.alloc, toks, triple.pre.from, 1, &self.scope, false)?;
        let (body, _) = build_term(self.alloc, toks, triple.body.from, 0, &self.scope)?;
        let (post, _) = build_cond(self.alloc, toks, triple.post.from, 1, &self.scope, false)?;
        Ok((pre, body, post))
    }

    // Builds the goal that is a triple.
    fn build_goal(&self, toks: &[Token], triple: MeasuredTriple<Extent>) -> Result<Goal, TextFault>
        ensures { Makes (Unit {0}) goal_tree result (
            built_goal (state_of self.now) (triple_of (lexemes toks.now) triple)
            ) }
    {
        let (pre, _) = build_cond(self.alloc, toks, triple.pre.from, 1, &self.scope, true)?;
        let body = self.build_side(toks, triple.body.from)?;
        let (post, _) = build_cond(self.alloc, toks, triple.post.from, 1, &self.scope, true)?;
        Ok(Goal::Triple(pre, body, post))
    }

    fn add_hyp(&mut self, term: Kat) -> Result<(), TextFault>
        ensures { Leaves result self.new (Ok (state_hyp (state_of self.old) (kat_tree term))) }
    {
        self.hyps.push(term)?;
        Ok(())
    }

    fn add_goal(&mut self, goal: Goal) -> Result<(), TextFault>
        ensures { Leaves result self.new (Ok (state_goal (state_of self.old) (goal_tree goal))) }
    {
        self.goals.push(goal)?;
        Ok(())
    }

    // Whether a `var`, a `prog` or a `goal` precedes, after which `width` is refused (`Sort`). Each leaves a variable,
    // a program or a goal, so nothing else needs to be remembered.
    fn has_begun(&self) -> bool
        ensures { result ≡ has_begun (state_of self.now) }
    {
        self.vars > 0 || self.progs.len() > 0 || self.goals.len() > 0
    }

    fn begin_rounds(&self, at: usize) -> Result<(), TextFault>
        ensures { result ≡ begin_rounds (state_of self.now) at }
    {
        if self.rounds.is_some() {
            return Err(TextFault::DoubleName(at));
        }
        Ok(())
    }

    fn begin_width(&self, at: usize) -> Result<(), TextFault>
        ensures { result ≡ begin_width (state_of self.now) at }
    {
        if self.width.is_some() {
            return Err(TextFault::DoubleName(at));
        }
        if self.has_begun() {
            return Err(TextFault::Sort(at));
        }
        Ok(())
    }

    fn set_rounds(&mut self, place: usize, number: u64) -> Result<(), TextFault>
        ensures { Leaves result self.new (set_rounds (state_of self.old) place number) }
    {
        if number > MAX_ROUNDS {
            return Err(TextFault::TooMany(place));
        }
        self.rounds = Some(number);
        Ok(())
    }

    fn set_width(&mut self, place: usize, number: u64) -> Result<(), TextFault>
        ensures { Leaves result self.new (set_width (state_of self.old) place number) }
    {
        let Some(width) = width_with(number) else {
            return Err(TextFault::Sort(place));
        };
        self.width = Some(width);
        Ok(())
    }
}

impl ItemReading for ItemReader {
    type Measure = Extent;

    ghost S = { State };

    ghost memory = { Unit {0} };

    ghost state = { state_of };

    ghost actions = { making };

    fn measure_term(&self, toks: &[Token], from: usize) -> Result<(Extent, usize), TextFault> {
        measure_term(toks, from, 0, &self.scope)
    }

    fn measure_cond(
        &self,
        toks: &[Token],
        from: usize,
        compares: bool,
    ) -> Result<(Extent, usize), TextFault> {
        measure_cond(toks, from, 1, &self.scope, compares)
    }

    fn measure_block(&self, toks: &[Token], from: usize) -> Result<(Extent, usize), TextFault> {
        measure_block(toks, from, 0, &self.scope, &self.progs)
    }

    fn measure_program(&self, name: &str) -> Option<Extent> {
        match self.prog_named(name) {
            Some(named) => Some(program_extent(named)),
            None => None,
        }
    }

    fn declare(&mut self, what: Declared, name: &Token) -> Result<(), TextFault> {
        match what {
            Declared::Test => self.declare_test(name),
            Declared::Action => self.declare_action(name),
            Declared::Var => self.declare_var(name),
        }
    }

    fn check_new(&self, name: &Token) -> Result<(), TextFault> {
        self.check_undeclared(name)
    }

    fn define(
        &mut self,
        toks: &[Token],
        at: usize,
        name: &Token,
        term: Measured<Extent>,
    ) -> Result<(), TextFault>
        requires identifier { IsIdentifier name.now.text.now }
        requires new { check_new (state_of self.old) name.now.at name.now.text.now ≡ Ok tt }
        ensures { Leaves result self.new (
            define_term (state_of self.old) at name.now.text.now
            (measured_of (lexemes toks.now) term)
            ) }
    {
        self.count(at, term.measure.nodes)?;
        let (tree, _) = build_term(self.alloc, toks, term.from, 0, &self.scope)?;
        self.scope.define_term(name, tree, term.measure.nesting)?;
        Ok(())
    }

    fn define_prog(
        &mut self,
        toks: &[Token],
        at: usize,
        name: &Token,
        block: Measured<Extent>,
    ) -> Result<(), TextFault>
        requires identifier { IsIdentifier name.now.text.now }
        requires new { check_new (state_of self.old) name.now.at name.now.text.now ≡ Ok tt }
        ensures { Leaves result self.new (
            define_prog (state_of self.old) at name.now.text.now
            (measured_of (lexemes toks.now) block)
            ) }
    {
        self.count(at, block.measure.nodes)?;
        let (prog, _) = build_block(self.alloc, toks, block.from, 0, &self.scope, &self.progs)?;
        let text = name_bytes(self.alloc, name)?;
        let named = NamedProg::new(text, prog, block.measure.nesting);
        self.add_prog(name, named)
    }

    fn begin_hyp(&self, at: usize) -> Result<(), TextFault> {
        if self.hyps.len() >= MAX_HYPS {
            return Err(TextFault::TooMany(at));
        }
        Ok(())
    }

    fn state_zero(
        &mut self,
        toks: &[Token],
        at: usize,
        term: Measured<Extent>,
    ) -> Result<(), TextFault>
        ensures { Leaves result self.new (
            state_zero (state_of self.old) at (measured_of (lexemes toks.now) term)
            ) }
    {
        self.count(at, term.measure.nodes)?;
        let (tree, _) = build_term(self.alloc, toks, term.from, 0, &self.scope)?;
        self.add_hyp(tree)
    }

    fn state_triple(
        &mut self,
        toks: &[Token],
        at: usize,
        triple: MeasuredTriple<Extent>,
    ) -> Result<(), TextFault>
        ensures { Leaves result self.new (
            state_triple (state_of self.old) at (triple_of (lexemes toks.now) triple)
            ) }
    {
        self.count_triple(at, triple)?;
        let (pre, body, post) = self.build_triple(toks, triple)?;
        self.add_hyp(triple_term(self.alloc, pre, body, post)?)
    }

    fn begin_setting(&self, what: Setting, at: usize) -> Result<(), TextFault> {
        match what {
            Setting::Rounds => self.begin_rounds(at),
            Setting::Width => self.begin_width(at),
        }
    }

    fn set(&mut self, what: Setting, place: usize, number: u64) -> Result<(), TextFault> {
        match what {
            Setting::Rounds => self.set_rounds(place, number),
            Setting::Width => self.set_width(place, number),
        }
    }

    fn check_numbers(&self, toks: &[Token], from: usize, end: usize) -> Result<(), TextFault> {
        check_numbers(self.width(), toks, from, end)
    }

    fn begin_goal(&self, at: usize) -> Result<(), TextFault> {
        if self.goals.len() < self.limit.most() {
            return Ok(());
        }
        Err(self.limit.fault(at))
    }

    fn pose_sides(
        &mut self,
        toks: &[Token],
        at: usize,
        comparison: Comparison,
        sides: MeasuredSides<Extent>,
    ) -> Result<(), TextFault>
        ensures { Leaves result self.new (
            pose_sides comparison (state_of self.old) at (sides_of (lexemes toks.now) sides)
            ) }
    {
        self.count_sides(toks, at, sides)?;
        let left = self.build_side(toks, sides.left.from)?;
        let right = self.build_side(toks, sides.right.from)?;
        self.add_goal(comparison_goal(comparison, left, right))
    }

    fn pose_triple(
        &mut self,
        toks: &[Token],
        at: usize,
        triple: MeasuredTriple<Extent>,
    ) -> Result<(), TextFault>
        ensures { Leaves result self.new (
            pose_triple (state_of self.old) at (triple_of (lexemes toks.now) triple)
            ) }
    {
        self.count_parts(toks, at, triple)?;
        let goal = self.build_goal(toks, triple)?;
        self.add_goal(goal)
    }
}
