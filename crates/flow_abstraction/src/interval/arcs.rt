//! Arcs of the numbers modulo 2 to a width.
ghost use Rattle.std.specs.Prelude.{◌≡◌, ◌≤◌, ◌<◌, ◌^◌, ◌&&◌, [], ◌∷◌};
ghost use Rattle.kat_model.specs.Stores.{modulus as modulus_of};
ghost use Rattle.flow_problem.specs.FlowFacts.{lies_in as is_in_arc, other_arc as arc_outside, literal_arc, have_common as have_common_number};
ghost use Rattle.flow_abstraction.specs.ArcViews.{arc_of, span_of};
ghost use Rattle.flow_abstraction.specs.Working.IntervalFacts.{is_in, is_in_both, have_common_of, is_least_of};

use kat_model::Width;

/// `size` successive numbers of a width, from `start` on; after the greatest number comes 0.
#[derive(Clone, Copy)]
pub(crate) struct Arc {
    pub start: u64,
    pub size: u64,
}

/// An arc, or the numbers outside one: their size can be 2^64.
#[derive(Clone, Copy)]
pub(crate) struct Span {
    pub start: u64,
    pub size: u128,
}

/// Returns the number of values of a width.
pub(crate) fn modulus(width: Width) -> u128
    ensures value { result ≡ modulus_of width }
    ensures some { 0 < result }
    ensures most { result ≤ 2 ^ 64 }
{
    match width {
        Width::W8 => 0x100,
        Width::W16 => 0x1_0000,
        Width::W32 => 0x1_0000_0000,
        Width::W64 => 0x1_0000_0000_0000_0000,
    }
}

// Returns the numbers outside an arc.
fn outside(width: Width, arc: Arc) -> Span
    ensures { span_of result ≡ arc_outside (modulus_of width) (arc_of arc) }
{
    let m = modulus(width);
    let start = (arc.start as u128 + arc.size as u128) % m;
    Span {
        start: start as u64,
        size: m.saturating_sub(arc.size as u128),
    }
}

/// Returns the arc, or the numbers outside it.
pub(crate) fn literal_span(width: Width, arc: Arc, holds: bool) -> Span
    ensures { span_of result ≡ literal_arc (modulus_of width) (arc_of arc) holds }
{
    if !holds {
        return outside(width, arc);
    }
    Span {
        start: arc.start,
        size: arc.size as u128,
    }
}

fn lies_in(width: Width, span: &Span, number: u64) -> bool
    ensures { result ≡ is_in_arc (modulus_of width) (span_of span.now) number }
{
    let m = modulus(width);
    let back = m.saturating_sub(span.start as u128);
    (number as u128 + back) % m < span.size
}

fn lies_in_two(width: Width, a: &Span, b: &Span, number: u64) -> bool
    ensures { result ≡ (is_in width a.now number && is_in width b.now number) }
{
    lies_in(width, a, number) && lies_in(width, b, number)
}

fn lies_in_three(width: Width, a: &Span, b: &Span, c: &Span, number: u64) -> bool
    ensures { result ≡ (is_in width a.now number && is_in_both width b.now c.now number) }
{
    lies_in(width, a, number) && lies_in_two(width, b, c, number)
}

/// Whether two arcs have a number in common. If so, it can be the start of one of them.
#[tactic(auto, using(crate::proofs::ArcTests::two_common))]
pub(crate) fn two_have_common(width: Width, a: &Span, b: &Span) -> bool
    ensures { result ≡ have_common_number (modulus_of width) (span_of a.now ∷ span_of b.now ∷ []) }
{
    lies_in_two(width, a, b, a.start) || lies_in_two(width, a, b, b.start)
}

#[tactic(auto, using(crate::proofs::ArcTests::three_common))]
fn three_have_common(width: Width, a: &Span, b: &Span, c: &Span) -> bool
    ensures { result ≡ have_common_of width (a.now ∷ b.now ∷ c.now ∷ []) }
{
    lies_in_three(width, a, b, c, a.start)
        || lies_in_three(width, a, b, c, b.start)
        || lies_in_three(width, a, b, c, c.start)
}

/// Whether three arcs have no number in common, while each two of them have one.
pub(crate) fn is_least(width: Width, a: &Span, b: &Span, c: &Span) -> bool
    ensures { result ≡ is_least_of width a.now b.now c.now }
{
    two_have_common(width, a, b)
        && two_have_common(width, a, c)
        && two_have_common(width, b, c)
        && !three_have_common(width, a, b, c)
}
