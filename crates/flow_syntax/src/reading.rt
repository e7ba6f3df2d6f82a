//! The reader.
ghost use Rattle.std.specs.Prelude.{◌≡◌, ◌+◌, List, [], ◌∷◌, ◌++◌, drop, reverse, None, Some, IfOk, IfErr, IfSome, IfNone, OnOk};
ghost use Rattle.flow_syntax.specs.Rules.{parts_of_rule, parts_of_rules, first_terminal, index_after_matching, starts_with, begins, suits, applies, chosen};
ghost use Rattle.flow_syntax.specs.Moves.{state, place_of, mismatch, taking, opening, stepped, move, predicted};
ghost use Rattle.flow_syntax.specs.Derivations.{Derives, IsReaderFault};
ghost use Rattle.flow_syntax.specs.Weights.{AreLight};
ghost use Rattle.flow_syntax.specs.Working.Reading.{Sees, Makes};

use crate::rule::{
    CLOSE_ROUND, END_OF_TEXT, Grammar, Mark, NUMBER, OPEN_ROUND, Part, Rule, Start, Step,
    WIDE_NUMBER,
};
use kat_model::{MAX_OPEN, NoMemory};
use std::alloc::Global;
use text_parser::TextFault;

fn mark_at(marks: &[Mark], i: usize) -> Option<Mark>
    ensures { Sees result marks.now i }
{
    match marks.get(i) {
        Some(mark) => Some(*mark),
        None => None,
    }
}

fn place_at(marks: &[Mark], i: usize, end: usize) -> usize
    ensures { result ≡ place_of end (drop i marks.now) }
{
    match mark_at(marks, i) {
        Some(mark) => mark.at,
        None => end,
    }
}

fn first_terminal(marks: &[Mark], i: usize) -> usize
    ensures { result ≡ first_terminal (drop i marks.now) }
{
    match mark_at(marks, i) {
        None => END_OF_TEXT,
        Some(mark) => {
            if mark.terminal == WIDE_NUMBER {
                NUMBER
            } else {
                mark.terminal
            }
        }
    }
}

// Returns the index after the parenthesis that matches one just before `from`, or the number of tokens if there is none.
#[tactic(auto, using(crate::proofs::Parentheses::next_drop))]
fn index_after_matching(marks: &[Mark], from: usize) -> usize
    ensures { drop result marks.now ≡ index_after_matching 0 (drop from marks.now) }
{
    let mut open: usize = 0;
    for i in from..marks.len() {
        let terminal = marks[i].terminal;
        if terminal == OPEN_ROUND {
            open += 1;
        } else if terminal == CLOSE_ROUND {
            if open == 0 {
                return i + 1;
            }
            open -= 1;
        }
    }
    marks.len()
}

fn starts_with(terminal: usize, start: Start) -> bool
    ensures { result ≡ starts_with terminal start }
{
    match start {
        Start::Take(expected) => terminal == expected,
        Start::Open(expected) => terminal == expected,
        Start::Group(_) => terminal == OPEN_ROUND,
        Start::Otherwise => false,
    }
}

// Whether some rule of the phrase begins with a token of this terminal.
fn begins(rules: &[Rule], phrase: usize, terminal: usize) -> bool
    ensures { result ≡ begins (parts_of_rules rules.now) phrase terminal }
{
    for rule in rules {
        if rule.phrase == phrase && starts_with(terminal, rule.start) {
            return true;
        }
    }
    false
}

fn suits_group(rules: &[Rule], phrase: usize, marks: &[Mark], at: usize) -> bool
    ensures { result ≡ begins (parts_of_rules rules.now) phrase (first_terminal (index_after_matching 0 (drop 1 (drop at marks.now)))) }
{
    match mark_at(marks, at) {
        None => begins(rules, phrase, END_OF_TEXT),
        Some(_) => {
            let after = index_after_matching(marks, at + 1);
            begins(rules, phrase, first_terminal(marks, after))
        }
    }
}

// Whether a rule with this start applies before the token at index `at`.
fn suits(rules: &[Rule], start: Start, marks: &[Mark], at: usize) -> bool
    ensures { result ≡ suits (parts_of_rules rules.now) start (drop at marks.now) }
{
    match start {
        Start::Take(expected) => first_terminal(marks, at) == expected,
        Start::Open(expected) => first_terminal(marks, at) == expected,
        Start::Group(phrase) => {
            first_terminal(marks, at) == OPEN_ROUND && !suits_group(rules, phrase, marks, at)
        }
        Start::Otherwise => true,
    }
}

fn applies(rules: &[Rule], rule: &Rule, phrase: usize, marks: &[Mark], at: usize) -> bool
    ensures { result ≡ applies (parts_of_rules rules.now) phrase (drop at marks.now) (parts_of_rule rule.now) }
{
    rule.phrase == phrase && suits(rules, rule.start, marks, at)
}

// Returns the rule by which the phrase is read before the token at index `at`, with its number.
fn chosen<'a>(
    rules: &'a [Rule],
    phrase: usize,
    marks: &[Mark],
    at: usize,
) -> Option<(usize, &'a Rule)>
    ensures some { IfSome result (λ x. chosen (parts_of_rules rules.now) phrase (drop at marks.now) ≡ Some (x.0, parts_of_rule x.1.now)) }
    ensures none { IfNone result (chosen (parts_of_rules rules.now) phrase (drop at marks.now) ≡ None) }
{
    for (k, rule) in rules.iter().enumerate() {
        if applies(rules, rule, phrase, marks, at) {
            return Some((k, rule));
        }
    }
    None
}

fn mismatch(expected: usize, mark: Mark) -> TextFault
    ensures { result ≡ mismatch expected mark }
{
    if expected == NUMBER && mark.terminal == WIDE_NUMBER {
        return TextFault::NumberTooWide(mark.at);
    }
    TextFault::Syntax(mark.at)
}

// Makes a step that takes a token of this terminal, or its fault. Returns the step, the next index and the depth.
fn take(
    step: Step,
    marks: &[Mark],
    at: usize,
    expected: usize,
    depth: usize,
    end: usize,
) -> Result<(Step, usize, usize), TextFault>
    ensures { (ps : List Part) → Makes marks.now ps result (stepped step (λ rest. state depth ps rest) (taking end expected (drop at marks.now))) }
{
    match mark_at(marks, at) {
        None => Err(TextFault::Syntax(end)),
        Some(mark) => {
            if mark.terminal != expected {
                return Err(mismatch(expected, mark));
            }
            Ok((step, at + 1, depth))
        }
    }
}

// Likewise, for a token that opens a construct inside `depth` others.
fn take_opening(
    step: Step,
    marks: &[Mark],
    at: usize,
    expected: usize,
    depth: usize,
    end: usize,
) -> Result<(Step, usize, usize), TextFault>
    ensures { (ps : List Part) → Makes marks.now ps result (stepped step (λ rest. state (depth + 1) ps rest) (opening end depth expected (drop at marks.now))) }
{
    match mark_at(marks, at) {
        None => Err(TextFault::Syntax(end)),
        Some(mark) => {
            if mark.terminal != expected {
                return Err(mismatch(expected, mark));
            }
            if depth >= MAX_OPEN {
                return Err(TextFault::TooDeep(mark.at));
            }
            Ok((step, at + 1, depth + 1))
        }
    }
}

// The parts that are still to be read are on a stack, whose last element is the next part.

fn next_part(stack: &mut Vec<Part>) -> Option<Part>
    ensures some { IfSome result (λ part. reverse stack.old.items ≡ part ∷ reverse stack.new.items) }
    ensures none { IfNone result (reverse stack.old.items ≡ []) }
{
    stack.pop()
}

fn push_part(stack: &mut Vec<Part>, part: Part) -> Result<(), NoMemory>
    ensures { OnOk result (reverse stack.new.items ≡ part ∷ reverse stack.old.items) }
{
    Ok(stack.push(part)?)
}

fn push_parts(stack: &mut Vec<Part>, parts: &[Part]) -> Result<(), NoMemory>
    ensures { OnOk result (reverse stack.new.items ≡ parts.now ++ reverse stack.old.items) }
{
    let mut left = parts.len();
    while left > 0 {
        left -= 1;
        push_part(stack, parts[left])?;
    }
    Ok(())
}

// Reads the start of a rule, before its parts are pushed.
fn start(
    rule: &Rule,
    number: usize,
    marks: &[Mark],
    end: usize,
    at: usize,
    depth: usize,
) -> Result<(Step, usize, usize), TextFault>
    ensures { (ps : List Part) → Makes marks.now (rule.now.parts.items ++ ps) result (predicted end depth ps (drop at marks.now) (Some (number, parts_of_rule rule.now))) }
{
    let shift = Step::Shift(number);
    match rule.start {
        Start::Take(expected) => take(shift, marks, at, expected, depth, end),
        Start::Open(expected) => take_opening(shift, marks, at, expected, depth, end),
        Start::Group(_) => take_opening(shift, marks, at, OPEN_ROUND, depth, end),
        Start::Otherwise => Ok((Step::Apply(number), at, depth)),
    }
}

// Reads the start of a rule and pushes its parts.
fn begin(
    rule: &Rule,
    number: usize,
    marks: &[Mark],
    end: usize,
    at: usize,
    depth: usize,
    stack: &mut Vec<Part>,
) -> Result<(Step, usize, usize), TextFault>
    ensures value { Makes marks.now (reverse stack.new.items) result (predicted end depth (reverse stack.old.items) (drop at marks.now) (Some (number, parts_of_rule rule.now))) }
{
    let made = start(rule, number, marks, end, at, depth)?;
    push_parts(stack, &rule.parts)?;
    Ok(made)
}

// Reads one part, which was taken from the stack.
fn advance(
    rules: &[Rule],
    marks: &[Mark],
    end: usize,
    part: Part,
    at: usize,
    depth: usize,
    stack: &mut Vec<Part>,
) -> Result<(Step, usize, usize), TextFault>
    ensures value { Makes marks.now (reverse stack.new.items) result (move (parts_of_rules rules.now) end (state depth (part ∷ reverse stack.old.items) (drop at marks.now))) }
{
    match part {
        Part::Token(expected) => take(Step::Match, marks, at, expected, depth, end),
        Part::Opening(expected) => take_opening(Step::Match, marks, at, expected, depth, end),
        Part::Closing => Ok((Step::Close, at, depth.saturating_sub(1))),
        Part::Phrase(phrase) => match chosen(rules, phrase, marks, at) {
            None => Err(TextFault::Syntax(place_at(marks, at, end))),
            Some((number, rule)) => begin(rule, number, marks, end, at, depth, stack),
        },
    }
}

// Reads the parts on a stack until none is left, and appends their steps. `weights` shows that the steps end.
#[tactic(auto, using(crate::proofs::Leading::leads_push, crate::proofs::MovesMade::refused_by))]
fn read_parts(
    rules: &[Rule],
    weights: &[usize],
    marks: &[Mark],
    phrase: usize,
    end: usize,
    stack: &mut Vec<Part>,
    steps: &mut Vec<Step>,
) -> Result<(), TextFault>
    requires light { AreLight weights.now (parts_of_rules rules.now) }
    requires begins { reverse stack.old.items ≡ Part.Phrase phrase ∷ [] }
    requires empty { steps.old.items ≡ [] }
    ensures read { OnOk result (Derives (parts_of_rules rules.now) phrase marks.now end steps.new.items) }
    ensures refused { IfErr result (λ fault. IsReaderFault (parts_of_rules rules.now) phrase marks.now end fault) }
{
    let mut at = 0;
    let mut depth: usize = 0;
    'parts: loop {
        let Some(part) = next_part(stack) else {
            if at < marks.len() {
                return Err(TextFault::Syntax(place_at(marks, at, end)));
            }
            return Ok(());
        };
        let (step, next, inside) = advance(rules, marks, end, part, at, depth, stack)?;
        steps.push(step)?;
        at = next;
        depth = inside;
    }
}

/// Returns the leftmost derivation of the tokens from a phrase, in a text of `end` bytes, or its first fault: `Syntax`
/// at a token that is not allowed there (or at `end`), `TooDeep` at a token that opens a construct inside `MAX_OPEN`
/// others, or `NumberTooWide` at a number of 2^64 or more. Fails with `NoMemory` only when out of memory.
pub fn read(
    alloc: Global,
    grammar: &Grammar,
    marks: &[Mark],
    phrase: usize,
    end: usize,
) -> Result<Vec<Step>, TextFault>
    requires { AreLight grammar.now.weights.items (parts_of_rules grammar.now.rules.items) }
    ensures read { IfOk result (λ steps. Derives (parts_of_rules grammar.now.rules.items) phrase marks.now end steps.items) }
    ensures refused { IfErr result (λ fault. IsReaderFault (parts_of_rules grammar.now.rules.items) phrase marks.now end fault) }
{
    let rules = grammar.rules.as_slice();
    let weights = grammar.weights.as_slice();
    let mut stack = Vec::new(alloc);
    push_part(&mut stack, Part::Phrase(phrase))?;
    let mut steps = Vec::new(alloc);
    read_parts(rules, weights, marks, phrase, end, &mut stack, &mut steps)?;
    Ok(steps)
}
