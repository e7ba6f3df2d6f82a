//! The words of a command line, and the table of the words that form a command.
ghost use Rattle.std.specs.Prelude.{◌≡◌, ◌++◌, ◌∷◌, [], List, ℕ, OnOk, OnErr, Option, if◌then◌else◌};
ghost use Rattle.std.specs.Option.{option_map};
ghost use Rattle.tool_commands.specs.Commands.{command_of, command_seen, is_value, with_file, with_option, with_value, with_evidence, with_turns, with_limit};

use crate::numbers::{ProblemCount, count_of, number_of};
use kat_model::NoMemory;
use std::alloc::Global;
use std::marker::Model;

/// The number of steps to which `optimise` is limited without `--turns`.
pub const DEFAULT_STEPS: u64 = 1_000;

/// The words of a command line, without the name of the program.
#[derive(Drop)]
pub struct Words {
    alloc: Global,
    texts: Vec<String>,
}

impl Model for Words {
    ghost use Rattle.std.specs.Prelude.{List, ℕ, map, string_bytes};

    ghost Value = { List (List ℕ) };

    ghost view = { λ w. map string_bytes w.texts.items };
}

/// The command that a list of words forms.
#[derive(Clone, Copy)]
pub enum Command<'a> {
    /// `decide` FILE
    Decide(&'a str),
    /// `decide` FILE `--json`
    DecideJson(&'a str),
    /// `show` FILE
    Show(&'a str),
    /// `gkat` FILE
    Gkat(&'a str),
    /// `flow` FILE
    Flow(&'a str),
    /// `batch` FILE
    Batch(&'a str),
    /// `check` FILE EVIDENCE
    Check(&'a str, &'a str),
    /// `replay` FILE EVIDENCE
    Replay(&'a str, &'a str),
    /// `explain` FILE EVIDENCE
    Explain(&'a str, &'a str),
    /// `try` FILE TURNS
    Try {
        file: &'a str,
        turns: u64,
    },
    /// `try` FILE TURNS EVIDENCE
    TryWith {
        file: &'a str,
        turns: u64,
        evidence: &'a str,
    },
    /// `outline` FILE
    Outline(&'a str),
    /// `outline` FILE NOTES
    OutlineCheck(&'a str, &'a str),
    /// `chain` FILE PROOF
    Chain(&'a str, &'a str),
    /// `run` FILE PROG STORE TURNS
    Run {
        file: &'a str,
        prog: &'a str,
        store: &'a str,
        turns: u64,
    },
    /// `oneloop` FILE PROG
    OneLoop(&'a str, &'a str),
    /// `bench` N
    Bench(ProblemCount),
    /// `optimise` FILE PROG, with or without `--turns` N
    Optimise {
        file: &'a str,
        prog: &'a str,
        turns: u64,
    },
}

impl Words {
    /// Returns an empty list of words. Allocates nothing.
    pub fn new(alloc: Global) -> Words
        ensures { result ≡ [] }
    {
        Words {
            alloc,
            texts: Vec::new(alloc),
        }
    }

    /// Appends a word. Leaves the list unchanged when out of memory.
    pub fn push(&mut self, word: &str) -> Result<(), NoMemory>
        ensures ok { OnOk result (self.new ≡ self.old ++ word.now ∷ []) }
        ensures err { OnErr result (self.new ≡ self.old) }
    {
        let text = String::from_str(self.alloc, word)?;
        self.texts.push(text)?;
        Ok(())
    }

    /// Returns the command of the words from the table, if any.
    pub fn command(&self) -> Option<Command<'_>>
        ensures { option_map command_seen result ≡ command_of self.now }
    {
        match self.texts.as_slice() {
            [name, file] => of_two(name.as_str(), file.as_str()),
            [name, file, last] => of_three(name.as_str(), file.as_str(), last.as_str()),
            [name, file, turns, evidence] => of_four(
                name.as_str(),
                file.as_str(),
                turns.as_str(),
                evidence.as_str(),
            ),
            [name, file, prog, next, turns] => of_five(
                name.as_str(),
                file.as_str(),
                prog.as_str(),
                next.as_str(),
                turns.as_str(),
            ),
            _ => None,
        }
    }
}

// The commands of two, three, four and five words.
fn of_two<'a>(name: &str, file: &'a str) -> Option<Command<'a>>
    ensures { option_map command_seen result ≡ command_of (name.now ∷ file.now ∷ []) }
{
    if is_value(file) {
        with_file(name, file)
    } else {
        None
    }
}

fn of_three<'a>(name: &str, file: &'a str, last: &'a str) -> Option<Command<'a>>
    ensures { option_map command_seen result ≡ command_of (name.now ∷ file.now ∷ last.now ∷ []) }
{
    if is_value(file) {
        with_last(name, file, last)
    } else {
        None
    }
}

fn of_four<'a>(name: &str, file: &'a str, turns: &str, evidence: &'a str) -> Option<Command<'a>>
    ensures { option_map command_seen result ≡ command_of (name.now ∷ file.now ∷ turns.now ∷ evidence.now ∷ []) }
{
    if is_value(file) && is_value(evidence) {
        with_evidence(name, file, turns, evidence)
    } else {
        None
    }
}

fn of_five<'a>(
    name: &str,
    file: &'a str,
    prog: &'a str,
    next: &'a str,
    turns: &str,
) -> Option<Command<'a>>
    ensures { option_map command_seen result ≡ command_of (name.now ∷ file.now ∷ prog.now ∷ next.now ∷ turns.now ∷ []) }
{
    if is_value(file) && is_value(prog) {
        with_number(name, file, prog, next, turns)
    } else {
        None
    }
}

// The commands of one file, or of a number.
#[tactic(auto, unfolding(crate::specs::Commands::with_file))]
fn with_file<'a>(name: &str, file: &'a str) -> Option<Command<'a>>
    ensures { option_map command_seen result ≡ with_file name.now file.now }
{
    match name {
        "decide" => Some(Command::Decide(file)),
        "show" => Some(Command::Show(file)),
        "gkat" => Some(Command::Gkat(file)),
        "flow" => Some(Command::Flow(file)),
        "batch" => Some(Command::Batch(file)),
        "outline" => Some(Command::Outline(file)),
        "bench" => match count_of(file) {
            Some(count) => Some(Command::Bench(count)),
            None => None,
        },
        _ => None,
    }
}

// The commands of a file and a last word, which is a value or an option.
fn with_last<'a>(name: &str, file: &'a str, last: &'a str) -> Option<Command<'a>>
    ensures { option_map command_seen result ≡ (if is_value last.now then with_value name.now file.now last.now else with_option name.now file.now last.now) }
{
    if is_value(last) {
        with_value(name, file, last)
    } else {
        with_option(name, file, last)
    }
}

// The commands of a file and an option.
#[tactic(auto, unfolding(crate::specs::Commands::with_option))]
fn with_option<'a>(name: &str, file: &'a str, option: &str) -> Option<Command<'a>>
    ensures { option_map command_seen result ≡ with_option name.now file.now option.now }
{
    match (name, option) {
        ("decide", "--json") => Some(Command::DecideJson(file)),
        _ => None,
    }
}

// The commands of a file and its evidence, a proof, notes, a program or a number of turns.
#[tactic(auto, unfolding(crate::specs::Commands::with_value))]
fn with_value<'a>(name: &str, file: &'a str, value: &'a str) -> Option<Command<'a>>
    ensures { option_map command_seen result ≡ with_value name.now file.now value.now }
{
    match name {
        "check" => Some(Command::Check(file, value)),
        "replay" => Some(Command::Replay(file, value)),
        "explain" => Some(Command::Explain(file, value)),
        "try" => match number_of(value) {
            Some(turns) => Some(Command::Try { file, turns }),
            None => None,
        },
        "chain" => Some(Command::Chain(file, value)),
        "outline" => Some(Command::OutlineCheck(file, value)),
        "oneloop" => Some(Command::OneLoop(file, value)),
        "optimise" => Some(Command::Optimise {
            file,
            prog: value,
            turns: DEFAULT_STEPS,
        }),
        _ => None,
    }
}

// The commands of a file, a number of turns and evidence.
#[tactic(auto, unfolding(crate::specs::Commands::with_evidence))]
fn with_evidence<'a>(
    name: &str,
    file: &'a str,
    turns: &str,
    evidence: &'a str,
) -> Option<Command<'a>>
    ensures { option_map command_seen result ≡ with_evidence name.now file.now turns.now evidence.now }
{
    match (name, number_of(turns)) {
        ("try", Some(turns)) => Some(Command::TryWith {
            file,
            turns,
            evidence,
        }),
        _ => None,
    }
}

// The commands of a file, a program, a store and turns.
#[tactic(auto, unfolding(crate::specs::Commands::with_turns))]
fn with_turns<'a>(
    name: &str,
    file: &'a str,
    prog: &'a str,
    store: &'a str,
    turns: &str,
) -> Option<Command<'a>>
    ensures { option_map command_seen result ≡ with_turns name.now file.now prog.now store.now turns.now }
{
    match (name, number_of(turns)) {
        ("run", Some(turns)) => Some(Command::Run {
            file,
            prog,
            store,
            turns,
        }),
        _ => None,
    }
}

// The commands of a file, a program, an option and its number.
#[tactic(auto, unfolding(crate::specs::Commands::with_limit))]
fn with_limit<'a>(
    name: &str,
    file: &'a str,
    prog: &'a str,
    option: &str,
    turns: &str,
) -> Option<Command<'a>>
    ensures { option_map command_seen result ≡ with_limit name.now file.now prog.now option.now turns.now }
{
    match (name, option, number_of(turns)) {
        ("optimise", "--turns", Some(turns)) => Some(Command::Optimise { file, prog, turns }),
        _ => None,
    }
}

// The commands of a file, a program, a store or an option, and a number.
fn with_number<'a>(
    name: &str,
    file: &'a str,
    prog: &'a str,
    next: &'a str,
    turns: &str,
) -> Option<Command<'a>>
    ensures { option_map command_seen result ≡ (if is_value next.now then with_turns name.now file.now prog.now next.now turns.now else with_limit name.now file.now prog.now next.now turns.now) }
{
    if is_value(next) {
        with_turns(name, file, prog, next, turns)
    } else {
        with_limit(name, file, prog, next, turns)
    }
}

fn is_value(word: &str) -> bool
    ensures { result ≡ is_value word.now }
{
    !word.is_empty() && !word.starts_with('-')
}
