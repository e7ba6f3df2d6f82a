//! Builds the chain of a text.
ghost use Rattle.std.specs.Prelude.{◌≡◌, IfOk, Ok};
ghost use Rattle.std.specs.Option.{option_map};
ghost use Rattle.kat_model.specs.Trees.{kat_tree};
ghost use Rattle.text_parser.specs.Lexemes.{lexemes};
ghost use Rattle.text_parser.specs.Parsed.{Makes};
ghost use Rattle.chain_rules.specs.ChainViews.{unboxed};
ghost use Rattle.chain_proofs.specs.ChainMaking.{axiom_named, known_axiom, total_with, extended, making_chain, make_chain};

use crate::chain_reading::ChainReading;
use crate::walk::read_chain;
use chain_rules::{Axiom, Chain, Line};
use kat_model::{Kat, MAX_TERM_NODES, MAX_TEXT_NODES, NoMemory};
use std::alloc::Global;
use text_parser::{Scope, TextFault, Token, build_term, measure_term, place_at};

// Builds the chain, with the names of the scope.
#[derive(Clone, Copy)]
struct Make<'a> {
    alloc: Global,
    scope: &'a Scope,
}

fn axiom_named(name: &str, number: u64) -> Option<Axiom>
    ensures { result ≡ axiom_named name.now number }
{
    match name {
        "assoc" => Some(Axiom::Assoc),
        "comm" => Some(Axiom::Comm),
        "idem" => Some(Axiom::Idem),
        "zero" => Some(Axiom::Zero),
        "seqassoc" => Some(Axiom::SeqAssoc),
        "oneleft" => Some(Axiom::OneLeft),
        "oneright" => Some(Axiom::OneRight),
        "zeroleft" => Some(Axiom::ZeroLeft),
        "zeroright" => Some(Axiom::ZeroRight),
        "distleft" => Some(Axiom::DistLeft),
        "distright" => Some(Axiom::DistRight),
        "unfoldleft" => Some(Axiom::UnfoldLeft),
        "unfoldright" => Some(Axiom::UnfoldRight),
        "bool" => Some(Axiom::Bool),
        "hyp" => Some(Axiom::Hyp(number)),
        "lfp" => Some(Axiom::Lfp),
        "rfp" => Some(Axiom::Rfp),
        _ => None,
    }
}

fn known_axiom(at: usize, found: Option<Axiom>) -> Result<Axiom, TextFault>
    ensures { result ≡ known_axiom at found }
{
    match found {
        Some(rule) => Ok(rule),
        None => Err(TextFault::UnknownName(at)),
    }
}

// Adds the nodes of a term, whose first byte is at `at`, to those of all terms so far.
fn total_with(at: usize, total: u64, nodes: u64) -> Result<u64, TextFault>
    ensures { result ≡ total_with at total nodes }
{
    let all = total.saturating_add(nodes);
    if nodes > MAX_TERM_NODES || all > MAX_TEXT_NODES {
        return Err(TextFault::TooLarge(at));
    }
    Ok(all)
}

fn boxed(alloc: Global, chain: Option<Chain>) -> Result<Option<Box<Chain>>, NoMemory>
    ensures { IfOk result (λ inner. unboxed inner ≡ chain) }
{
    match chain {
        None => Ok(None),
        Some(chain) => Ok(Some(Box::new(alloc, chain)?)),
    }
}

// Appends a line to the chain.
fn with_line(mut chain: Chain, line: Line) -> Result<Chain, NoMemory>
    ensures { IfOk result (λ c. c ≡ extended chain (kat_tree line.next) line.rule line.path.items (unboxed line.inner)) }
{
    chain.lines.push(line)?;
    Ok(chain)
}

impl ChainReading for Make<'_> {
    type Size = u64;

    type Term = Kat;

    type Rule = Axiom;

    type Path = Vec<u64>;

    type Chain = Chain;

    ghost use Rattle.std.specs.Prelude.{ℕ, List};
    ghost use Rattle.kat_model.specs.Trees.{Term};
    ghost use Rattle.chain_rules.specs.Chains.{ChainTree};
    ghost use Rattle.chain_rules.specs.declared.chain.Axiom.{Axiom};

    ghost Z = { ℕ };

    ghost T = { Term };

    ghost R = { Axiom };

    ghost P = { List ℕ };

    ghost V = { ChainTree };

    ghost memory = { Unit {0} };

    ghost size = { λ z. z };

    ghost term = { kat_tree };

    ghost rule = { λ r. r };

    ghost path = { λ p. p.items };

    ghost chain = { λ c. c };

    ghost actions = { λ s. making_chain s.scope.now };

    fn read_term(
        &self,
        toks: &[Token],
        from: usize,
        depth: usize,
        size: u64,
    ) -> Result<((Kat, u64), usize), TextFault> {
        let (extent, _) = measure_term(toks, from, depth, self.scope)?;
        let all = total_with(place_at(toks, from), size, extent.nodes)?;
        let (term, end) = build_term(self.alloc, toks, from, depth, self.scope)?;
        Ok(((term, all), end))
    }

    fn read_rule(&self, at: usize, name: &str, number: u64) -> Result<Axiom, TextFault> {
        known_axiom(at, axiom_named(name, number))
    }

    fn whole(&self) -> Vec<u64> {
        Vec::new(self.alloc)
    }

    fn part(&self, mut path: Vec<u64>, number: u64) -> Result<Vec<u64>, TextFault> {
        path.push(number)?;
        Ok(path)
    }

    fn first(&self, term: Kat) -> Chain {
        Chain {
            first: term,
            lines: Vec::new(self.alloc),
        }
    }

    fn line(
        &self,
        chain: Chain,
        next: Kat,
        rule: Axiom,
        path: Vec<u64>,
        inner: Option<Chain>,
    ) -> Result<Chain, TextFault>
        ensures { Makes (Unit {0}) (λ c. c) result (Ok (extended chain (kat_tree next) rule path.items (option_map (λ c. c) inner))) }
    {
        let inner = boxed(self.alloc, inner)?;
        Ok(with_line(
            chain,
            Line {
                next,
                rule,
                path,
                inner,
            },
        )?)
    }
}

/// Builds the chain from tokens that passed the syntax test, with the names of the scope. Fails with the first of
/// `UnknownName`, `Sort` and `TooLarge` in text order.
pub(crate) fn make_chain(alloc: Global, scope: &Scope, toks: &[Token]) -> Result<Chain, TextFault>
    ensures { Makes (Unit {0}) (λ c. c) result (make_chain scope.now (lexemes toks.now)) }
{
    let ((chain, _), _) = read_chain(&Make { alloc, scope }, toks, 0, 0, 0)?;
    Ok(chain)
}
