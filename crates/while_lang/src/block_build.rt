//! Builds the tree of a block.
ghost use Rattle.std.specs.Prelude.{◌≡◌, [], ◌∷◌, ◌++◌, map, length, drop, slice_get, Ok, IfOk, OnOk};
ghost use Rattle.text_parser.specs.Lexemes.{lexemes};
ghost use Rattle.text_parser.specs.Parsed.{Makes, Reads, Goes};
ghost use Rattle.while_lang.specs.Programs.{stmts_of};
ghost use Rattle.while_lang.specs.ProgramViews.{stmt_tree};
ghost use Rattle.while_lang.specs.NamedProgs.{parts_of_progs};
ghost use Rattle.while_lang.specs.BlockBuilding.{spliced, named_stmts, target_var, block_trees};
ghost use Rattle.while_lang.specs.BlockReadings.{built_block};

use crate::block_reading::BlockReading;
use crate::blocks;
use crate::named::NamedProg;
use crate::numbered::prog_at;
use crate::prog::{Prog, Stmt, push_stmt};
use kat_model::{Cond, Expr, NoMemory};
use std::alloc::Global;
use text_parser::{Meaning, Scope, TextFault, Token};

// The actions that build the tree of a block. The block was measured before.
#[derive(Clone, Copy)]
struct BlockBuild<'a> {
    alloc: Global,
    scope: &'a Scope,
    progs: &'a [NamedProg],
}

// Copies the statements of a program.
#[tactic(auto, using(crate::proofs::ProgramLists::listed_stmts))]
fn copy_stmts(alloc: Global, prog: &Prog) -> Result<Vec<Stmt>, NoMemory>
    ensures { IfOk result (λ list. map stmt_tree list.items ≡ stmts_of prog.now) }
{
    let Prog { list } = prog.copy(alloc)?;
    Ok(list)
}

// Copies the statements of program `i`, or returns an empty list if there is no such program.
fn copy_numbered(alloc: Global, progs: &[NamedProg], i: usize) -> Result<Vec<Stmt>, NoMemory>
    ensures { IfOk result (λ list. map stmt_tree list.items ≡ spliced (slice_get (parts_of_progs progs.now) i)) }
{
    let Some(named) = prog_at(progs, i) else {
        return Ok(Vec::new(alloc));
    };
    copy_stmts(alloc, &named.prog)
}

// Appends a statement.
fn push(list: &mut Vec<Stmt>, stmt: Stmt) -> Result<(), TextFault>
    ensures { Makes (Unit {0}) (λ u. map stmt_tree list.new.items) result (Ok (map stmt_tree list.old.items ++ stmt_tree stmt ∷ [])) }
{
    Ok(push_stmt(list, stmt)?)
}

// Moves the statements of `more` to the end of `list`.
fn append(list: &mut Vec<Stmt>, mut more: Vec<Stmt>) -> Result<(), NoMemory>
    ensures { OnOk result (map stmt_tree list.new.items ≡ map stmt_tree list.old.items ++ map stmt_tree more.items) }
{
    Ok(list.append(&mut more)?)
}

fn push_named(
    alloc: Global,
    progs: &[NamedProg],
    meaning: Option<Meaning>,
    list: &mut Vec<Stmt>,
) -> Result<(), NoMemory>
    ensures { OnOk result (map stmt_tree list.new.items ≡ map stmt_tree list.old.items ++ named_stmts (parts_of_progs progs.now) meaning) }
{
    match meaning {
        Some(Meaning::Action(a)) => push_stmt(list, Stmt::Act(a)),
        Some(Meaning::Prog(i)) => append(list, copy_numbered(alloc, progs, i)?),
        _ => Ok(()),
    }
}

fn target_var(meaning: Option<Meaning>) -> usize
    ensures { result ≡ target_var meaning }
{
    match meaning {
        Some(Meaning::Var(k)) => k,
        _ => 0,
    }
}

impl BlockReading for BlockBuild<'_> {
    type Expr = Expr;

    type Cond = Cond;

    type Stmts = Vec<Stmt>;

    ghost use Rattle.std.specs.Prelude.{List};
    ghost use Rattle.kat_model.specs.Trees.{Term};
    ghost use Rattle.kat_model.specs.Expressions.{ExprTree, CondTree, expr_tree, cond_tree};
    ghost use Rattle.while_lang.specs.Programs.{StmtTree};

    ghost E = { ExprTree };

    ghost B = { CondTree };

    ghost L = { List CondTree };

    ghost T = { Term };

    ghost M = { List Term };

    ghost S = { List StmtTree };

    ghost memory = { Unit {0} };

    ghost expr = { expr_tree };

    ghost cond = { cond_tree };

    ghost stmts = { λ list. map stmt_tree list.items };

    ghost actions = { λ s. block_trees s.scope.now (parts_of_progs s.progs.now) };

    fn read_expr(
        &self,
        toks: &[Token],
        from: usize,
        depth: usize,
    ) -> Result<(Expr, usize), TextFault> {
        text_parser::build_expr(self.alloc, toks, from, depth, self.scope)
    }

    fn read_cond(
        &self,
        toks: &[Token],
        from: usize,
        depth: usize,
    ) -> Result<(Cond, usize), TextFault> {
        text_parser::build_cond(self.alloc, toks, from, depth, self.scope, true)
    }

    fn none(&self) -> Vec<Stmt> {
        Vec::new(self.alloc)
    }

    fn skip(&self, list: &mut Vec<Stmt>) -> Result<(), TextFault> {
        push(list, Stmt::Skip)
    }

    fn abort(&self, list: &mut Vec<Stmt>) -> Result<(), TextFault> {
        push(list, Stmt::Abort)
    }

    fn assert(&self, list: &mut Vec<Stmt>, cond: Cond) -> Result<(), TextFault> {
        push(list, Stmt::Assert(cond))
    }

    fn named(&self, _: usize, _: usize, name: &str, list: &mut Vec<Stmt>) -> Result<(), TextFault> {
        Ok(push_named(self.alloc, self.progs, self.scope.find(name), list)?)
    }

    fn check_target(&self, _: usize, _: &str) -> Result<(), TextFault> {
        Ok(())
    }

    fn assign(&self, list: &mut Vec<Stmt>, name: &str, expr: Expr) -> Result<(), TextFault> {
        let var = target_var(self.scope.find(name));
        push(list, Stmt::Assign(var, expr))
    }

    fn branch(
        &self,
        list: &mut Vec<Stmt>,
        cond: Cond,
        first: Vec<Stmt>,
        second: Vec<Stmt>,
    ) -> Result<(), TextFault> {
        let first = Prog { list: first };
        let second = Prog { list: second };
        push(list, Stmt::If(cond, first, second))
    }

    fn turn(&self, list: &mut Vec<Stmt>, cond: Cond, body: Vec<Stmt>) -> Result<(), TextFault> {
        push(list, Stmt::While(cond, Prog { list: body }))
    }

    fn braced(&self, list: Vec<Stmt>) -> Vec<Stmt> {
        list
    }

    fn chained(&self, list: Vec<Stmt>) -> Vec<Stmt> {
        list
    }
}

/// Returns the program of the block that begins at `from`, with `depth` open constructs around it, and the index after
/// the block. The programs that it names are spliced in. May accept a block that [`crate::measure_block`] rejects; a
/// block that it accepts has a tree of the measured size.
pub fn build_block(
    alloc: Global,
    toks: &[Token],
    from: usize,
    depth: usize,
    scope: &Scope,
    progs: &[NamedProg],
) -> Result<(Prog, usize), TextFault>
    ensures value { Reads (Unit {0}) (λ p. p) (lexemes toks.now) result (built_block scope.now (parts_of_progs progs.now) depth (drop from (lexemes toks.now))) }
    ensures goes { Goes from (length toks.now) result }
{
    let build = BlockBuild {
        alloc,
        scope,
        progs,
    };
    let (list, end) = blocks::read_block(&build, toks, from, depth)?;
    Ok((Prog { list }, end))
}
