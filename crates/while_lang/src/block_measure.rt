//! The faults of the names of a block, and the size and nesting of the block.
ghost use Rattle.std.specs.Prelude.{◌≡◌, length, drop, slice_get};
ghost use Rattle.text_parser.specs.Lexemes.{lexemes};
ghost use Rattle.text_parser.specs.Parsed.{Reads, Goes};
ghost use Rattle.text_parser.specs.Measuring.{compared_nodes};
ghost use Rattle.while_lang.specs.NamedProgs.{parts_of_progs};
ghost use Rattle.while_lang.specs.BlockMeasuring.{extent, with_node, beside, deeper, spliced_extent, named_extent, check_target, block_extents};
ghost use Rattle.while_lang.specs.BlockReadings.{measured_block};

use crate::block_reading::BlockReading;
use crate::blocks;
use crate::named::NamedProg;
use crate::numbered::prog_at;
use kat_model::{MAX_EXPR_NODES, MAX_OPEN, MAX_TERM_NODES};
use text_parser::{Extent, Meaning, Scope, TextFault, Token};

// The actions that measure a block and reject what is not allowed in it.
#[derive(Clone, Copy)]
struct BlockMeasure<'a> {
    scope: &'a Scope,
    progs: &'a [NamedProg],
}

fn extent(nodes: u64, nesting: usize) -> Extent
    ensures { result ≡ extent nodes nesting }
{
    Extent {
        nodes: nodes.min(MAX_TERM_NODES + 1),
        test_nodes: 0,
        nesting: nesting.min(MAX_OPEN + 1),
    }
}

// Returns the extent after a statement is appended to `list`, with `below` below its node.
fn with_node(list: Extent, below: Extent) -> Extent
    ensures { result ≡ with_node list below }
{
    extent(
        list.nodes.saturating_add(below.nodes).saturating_add(1),
        list.nesting.max(below.nesting),
    )
}

fn beside(left: Extent, right: Extent) -> Extent
    ensures { result ≡ beside left right }
{
    extent(
        left.nodes.saturating_add(right.nodes),
        left.nesting.max(right.nesting),
    )
}

fn deeper(inside: Extent) -> Extent
    ensures { result ≡ deeper inside }
{
    extent(inside.nodes, inside.nesting.saturating_add(1))
}

// Returns the nodes of an expression; more than `MAX_EXPR_NODES` count as `MAX_TERM_NODES + 1`, which is too
// large.
fn compared_nodes(nodes: u64) -> u64
    ensures { result ≡ compared_nodes nodes }
{
    if nodes > MAX_EXPR_NODES {
        return MAX_TERM_NODES + 1;
    }
    nodes
}

fn with_program(
    progs: &[NamedProg],
    depth: usize,
    at: usize,
    i: usize,
    list: Extent,
) -> Result<Extent, TextFault>
    ensures { result ≡ spliced_extent depth at (slice_get (parts_of_progs progs.now) i) list }
{
    let Some(named) = prog_at(progs, i) else {
        return Ok(list);
    };
    if depth.saturating_add(named.nesting) > MAX_OPEN {
        return Err(TextFault::TooDeep(at));
    }
    Ok(beside(list, extent(named.size(), named.nesting)))
}

fn of_name(
    progs: &[NamedProg],
    depth: usize,
    at: usize,
    meaning: Option<Meaning>,
    list: Extent,
) -> Result<Extent, TextFault>
    ensures { result ≡ named_extent (parts_of_progs progs.now) depth at meaning list }
{
    match meaning {
        None => Err(TextFault::UnknownName(at)),
        Some(Meaning::Action(_)) => Ok(with_node(list, extent(0, 0))),
        Some(Meaning::Prog(i)) => with_program(progs, depth, at, i, list),
        Some(_) => Err(TextFault::Sort(at)),
    }
}

fn check_target(at: usize, meaning: Option<Meaning>) -> Result<(), TextFault>
    ensures { result ≡ check_target at meaning }
{
    match meaning {
        None => Err(TextFault::UnknownName(at)),
        Some(Meaning::Var(_)) => Ok(()),
        Some(_) => Err(TextFault::Sort(at)),
    }
}

impl BlockReading for BlockMeasure<'_> {
    type Expr = Extent;

    type Cond = Extent;

    type Stmts = Extent;

    ghost use Rattle.text_parser.specs.declared.extent.Extent.{Extent};

    ghost E = { Extent };

    ghost B = { Extent };

    ghost L = { Extent };

    ghost T = { Extent };

    ghost M = { Extent };

    ghost S = { Extent };

    ghost memory = { ⊥ };

    ghost expr = { λ m. m };

    ghost cond = { λ m. m };

    ghost stmts = { λ m. m };

    ghost actions = { λ s. block_extents s.scope.now (parts_of_progs s.progs.now) };

    fn read_expr(
        &self,
        toks: &[Token],
        from: usize,
        depth: usize,
    ) -> Result<(Extent, usize), TextFault> {
        text_parser::measure_expr(toks, from, depth, self.scope)
    }

    fn read_cond(
        &self,
        toks: &[Token],
        from: usize,
        depth: usize,
    ) -> Result<(Extent, usize), TextFault> {
        text_parser::measure_cond(toks, from, depth, self.scope, true)
    }

    fn none(&self) -> Extent {
        extent(0, 0)
    }

    fn skip(&self, list: &mut Extent) -> Result<(), TextFault> {
        *list = with_node(*list, extent(0, 0));
        Ok(())
    }

    fn abort(&self, list: &mut Extent) -> Result<(), TextFault> {
        *list = with_node(*list, extent(0, 0));
        Ok(())
    }

    fn assert(&self, list: &mut Extent, cond: Extent) -> Result<(), TextFault> {
        *list = with_node(*list, cond);
        Ok(())
    }

    fn named(
        &self,
        depth: usize,
        at: usize,
        name: &str,
        list: &mut Extent,
    ) -> Result<(), TextFault> {
        *list = of_name(self.progs, depth, at, self.scope.find(name), *list)?;
        Ok(())
    }

    fn check_target(&self, at: usize, name: &str) -> Result<(), TextFault> {
        check_target(at, self.scope.find(name))
    }

    fn assign(&self, list: &mut Extent, _: &str, expr: Extent) -> Result<(), TextFault> {
        *list = with_node(*list, extent(compared_nodes(expr.nodes), expr.nesting));
        Ok(())
    }

    fn branch(
        &self,
        list: &mut Extent,
        cond: Extent,
        first: Extent,
        second: Extent,
    ) -> Result<(), TextFault> {
        *list = with_node(*list, beside(cond, beside(first, second)));
        Ok(())
    }

    fn turn(&self, list: &mut Extent, cond: Extent, body: Extent) -> Result<(), TextFault> {
        *list = with_node(*list, beside(cond, body));
        Ok(())
    }

    fn braced(&self, list: Extent) -> Extent {
        deeper(list)
    }

    fn chained(&self, list: Extent) -> Extent {
        deeper(list)
    }
}

/// Returns the size and nesting of the block that begins at `from`, with `depth` open constructs around it and the
/// programs that it names spliced in, and the index after the block; or the first fault in its syntax or its names in
/// text order. Program i of the scope is `progs[i]`. Takes no memory; each use of a program costs one look-up.
pub fn measure_block(
    toks: &[Token],
    from: usize,
    depth: usize,
    scope: &Scope,
    progs: &[NamedProg],
) -> Result<(Extent, usize), TextFault>
    ensures value { Reads ⊥ (λ m. m) (lexemes toks.now) result (measured_block scope.now (parts_of_progs progs.now) depth (drop from (lexemes toks.now))) }
    ensures goes { Goes from (length toks.now) result }
{
    blocks::read_block(&BlockMeasure { scope, progs }, toks, from, depth)
}
