//! The parts of a problem file.
ghost use Rattle.std.specs.Prelude.{◌≡◌, ◌↔◌, IsTrue, option_map};
ghost use Rattle.while_lang.specs.NamedProgs.{prog_parts, parts_of_progs};
ghost use Rattle.while_lang.specs.Files.{prog_meant, prog_named};
ghost use Rattle.while_lang.specs.Trees.{goal_tree};
ghost use Rattle.while_lang.specs.Concrete.{PosesProgs, IsConcrete};

use crate::named::NamedProg;
use crate::numbered::prog_at;
use crate::prog::Prog;
use kat_model::{Cond, Kat, Width};
use std::marker::Model;
use text_parser::{Meaning, Scope};

/// A side of a goal. It is a program exactly when the text has only the name of a program in its place.
pub enum Side {
    Term(Kat),
    Prog(Prog),
}

// Explicit, as for goals: a derived drop is a part of the proof of each function that owns a file, with a case for each
// form of a goal.
impl Drop for Side {
    fn drop(self) {
        match self {
            Side::Term(_term) => {}
            Side::Prog(_prog) => {}
        }
    }
}

/// A goal: both sides denote one relation, the first side is below the second, or the Hoare triple of two conditions
/// around a side holds (partial correctness).
pub enum Goal {
    Equal(Side, Side),
    Below(Side, Side),
    Triple(Cond, Side, Cond),
}

impl Drop for Goal {
    fn drop(self) {
        match self {
            Goal::Equal(_left, _right) => {}
            Goal::Below(_left, _right) => {}
            Goal::Triple(_pre, _body, _post) => {}
        }
    }
}

/// The contents of a text. Tests, actions, variables, terms and programs are numbered from 0 in the order of their
/// declaration.
pub struct File {
    /// The meaning of each name.
    pub scope: Scope,
    /// The number of declared tests, at most `MAX_TESTS`.
    pub tests: usize,
    /// The number of declared actions, at most `MAX_ACTIONS`.
    pub actions: usize,
    /// The number of declared variables, at most `MAX_VARS`.
    pub vars: usize,
    /// The number of defined terms.
    pub terms: usize,
    /// The programs, with the programs that they name spliced in.
    pub progs: Vec<NamedProg>,
    /// The terms that are stated to be 0, at most `MAX_HYPS`.
    pub hyps: Vec<Kat>,
    /// The number of `rounds`, at most `MAX_ROUNDS`; 1 if the text has none.
    pub rounds: u64,
    pub goal: Goal,
    /// The width of the numbers in programs; 64 bits if the text has none.
    pub width: Width,
}

// Explicit, so that it is proved once and not at each end of each function that owns one.
impl Drop for File {
    fn drop(self) {
        let File {
            scope: _scope,
            tests: _,
            actions: _,
            vars: _,
            terms: _,
            progs: _progs,
            hyps: _hyps,
            rounds: _,
            goal: _goal,
            width: _,
        } = self;
    }
}

impl Model for File {
    ghost use Rattle.std.specs.Prelude.{map};
    ghost use Rattle.std.specs.Coded.{codes};
    ghost use Rattle.kat_model.specs.Codes.{coded_term};
    ghost use Rattle.kat_model.specs.ConditionCodes.{coded_cond};
    ghost use Rattle.kat_model.specs.Trees.{kat_tree};
    ghost use Rattle.text_parser.specs.Definitions.{coded_meanings};
    ghost use Rattle.while_lang.specs.ProgramCodes.{coded_prog};
    ghost use Rattle.while_lang.specs.NamedProgs.{parts_of_progs};
    ghost use Rattle.while_lang.specs.Files.{FileParts};

    ghost Value = { FileParts };

    ghost coded = { Prim.hlevel (codes, coded_term, coded_cond, coded_meanings, coded_prog) };

    ghost use Rattle.while_lang.specs.Trees.{goal_tree, names_of_progs};

    ghost view = { λ f. record {
      scope = f.scope;
      tests = f.tests;
      actions = f.actions;
      vars = f.vars;
      terms = f.terms;
      progs = parts_of_progs f.progs.items;
      prog_names = names_of_progs f.progs.items;
      hyps = map kat_tree f.hyps.items;
      rounds = f.rounds;
      goal = goal_tree f.goal;
      width = f.width;
    } };
}

/// Returns the program of a meaning; `progs` is indexed by program number.
pub fn prog_meant(progs: &[NamedProg], meaning: Option<Meaning>) -> Option<&NamedProg>
    ensures { option_map (λ n. prog_parts n.now) result ≡ prog_meant (parts_of_progs progs.now) meaning }
{
    match meaning {
        Some(Meaning::Prog(i)) => prog_at(progs, i),
        _ => None,
    }
}

fn poses_progs(goal: &Goal) -> bool
    ensures { IsTrue result ↔ PosesProgs (goal_tree goal.now) }
{
    matches!(
        goal,
        Goal::Equal(Side::Prog(_), Side::Prog(_)) | Goal::Triple(_, Side::Prog(_), _)
    )
}

impl File {
    /// Whether the file declares only variables and programs, states no hypothesis, and has a goal that equates two
    /// programs or is a triple of a program, so that the goal is about runs on stores. Allocates no memory.
    pub fn concrete(&self) -> bool
        ensures { IsTrue result ↔ IsConcrete self.now }
    {
        self.tests == 0
            && self.actions == 0
            && self.terms == 0
            && self.hyps.is_empty()
            && poses_progs(&self.goal)
    }

    /// Returns the program with that name, or `None` if no program has it. Allocates no memory.
    pub fn prog(&self, name: &str) -> Option<&Prog>
        ensures { option_map (λ p. p.now) result ≡ option_map (λ p. p.tree) (prog_named self.now.scope self.now.progs name.now) }
    {
        match prog_meant(&self.progs, self.scope.find(name)) {
            Some(named) => Some(&named.prog),
            None => None,
        }
    }
}
