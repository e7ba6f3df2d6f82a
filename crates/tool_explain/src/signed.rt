//! Forms, comparisons and assignments as people write them, with minus signs.
ghost use Rattle.std.specs.Prelude.{◌≡◌, ◌/◌, ◌++◌, OnOk, option_map};
ghost use Rattle.kat_model.specs.Stores.{modulus};
ghost use Rattle.linear_forms.specs.Views.{mono_tree};
ghost use Rattle.text_print.specs.Printing.{name_of};
ghost use Rattle.kat_report.specs.Shows.{plus_text, times_text};
ghost use Rattle.tool_explain.specs.Signed.{is_negative, magnitude, sign_text, signed_text, half_text, still_first, equation_word, order_word, comparison_text, literal_text, action_text, test_at_text, action_at_text};
ghost use Rattle.tool_explain.specs.Working.FormParts.{mono_text, signed_part, half_term, signed_constant, half_constant};

use abstraction::{ActionRow, TestRow};
use kat_model::{NoMemory, Width};
use linear_forms::{Atomic, Form, Mono, Term};
use std::alloc::Global;
use text_parser::{Meaning, Scope};
use text_print::{put, put_name, put_number};

// Returns half of the number of values of the width.
fn half(width: Width) -> u64
    ensures { result ≡ modulus width / 2 }
{
    match width {
        Width::W8 => 0x80,
        Width::W16 => 0x8000,
        Width::W32 => 0x8000_0000,
        Width::W64 => 0x8000_0000_0000_0000,
    }
}

// Whether the number is above half of the numbers of the width.
fn is_negative(width: Width, number: u64) -> bool
    ensures { result ≡ is_negative (modulus width) number }
{
    number > half(width)
}

// Returns the number without the sign that it is written with.
fn magnitude(width: Width, number: u64) -> u64
    ensures { result ≡ magnitude (modulus width) number }
{
    if is_negative(width, number) {
        width.mul(width.greatest(), number)
    } else {
        number
    }
}

fn put_sign(out: &mut Vec<u8>, first: bool, negative: bool) -> Result<(), NoMemory>
    ensures { OnOk result (out.new.items ≡ out.old.items ++ sign_text first negative) }
{
    match (first, negative) {
        (true, true) => put(out, b"0 - "),
        (true, false) => Ok(()),
        (false, true) => put(out, b" - "),
        (false, false) => put(out, b" + "),
    }
}

fn put_plus(out: &mut Vec<u8>, first: bool) -> Result<(), NoMemory>
    ensures { OnOk result (out.new.items ≡ out.old.items ++ plus_text first) }
{
    if first {
        return Ok(());
    }
    put(out, b" + ")
}

// Writes a coefficient other than 1.
fn put_times(alloc: Global, out: &mut Vec<u8>, times: u64) -> Result<(), NoMemory>
    ensures { OnOk result (out.new.items ≡ out.old.items ++ times_text times) }
{
    if times == 1 {
        return Ok(());
    }
    put_number(alloc, out, times)?;
    put(out, b"*")
}

// Writes the constant at the end of a form, with its sign if a term is before it.
fn put_signed_constant(
    alloc: Global,
    out: &mut Vec<u8>,
    width: Width,
    first: bool,
    constant: u64,
) -> Result<(), NoMemory>
    ensures { OnOk result (out.new.items ≡ out.old.items ++ signed_constant (modulus width) first constant) }
{
    if first {
        return put_number(alloc, out, constant);
    }
    if constant == 0 {
        return Ok(());
    }
    put_sign(out, false, is_negative(width, constant))?;
    put_number(alloc, out, magnitude(width, constant))
}

// Writes the constant of half of a form, if it is in that half.
fn put_half_constant(
    alloc: Global,
    out: &mut Vec<u8>,
    width: Width,
    side: bool,
    first: bool,
    constant: u64,
) -> Result<(), NoMemory>
    ensures { OnOk result (out.new.items ≡ out.old.items ++ half_constant (modulus width) side first constant) }
{
    let belongs = is_negative(width, constant) == side;
    match (first, belongs) {
        (true, true) => put_number(alloc, out, magnitude(width, constant)),
        (true, false) => put(out, b"0"),
        (false, false) => Ok(()),
        (false, true) => {
            if constant == 0 {
                return Ok(());
            }
            put(out, b" + ")?;
            put_number(alloc, out, magnitude(width, constant))
        }
    }
}

#[cycle(signed)]
fn put_mono(
    alloc: Global,
    out: &mut Vec<u8>,
    width: Width,
    mono: &Mono,
    scope: &Scope,
) -> Result<(), NoMemory>
    ensures { OnOk result (out.new.items ≡ out.old.items ++ mono_text (modulus width) (name_of scope.now) (mono_tree mono.now)) }
{
    match mono {
        Mono::Var(k) => put_name(out, scope, Meaning::Var(*k)),
        Mono::Product(f, g) => {
            put(out, b"(")?;
            put_signed(alloc, out, width, f, scope)?;
            put(out, b")*(")?;
            put_signed(alloc, out, width, g, scope)?;
            put(out, b")")
        }
    }
}

#[cycle(signed)]
fn put_part(
    alloc: Global,
    out: &mut Vec<u8>,
    width: Width,
    first: bool,
    term: &Term,
    scope: &Scope,
) -> Result<(), NoMemory>
    ensures { OnOk result (out.new.items ≡ out.old.items ++ signed_part (modulus width) (name_of scope.now) first term.now) }
{
    put_sign(out, first, is_negative(width, term.times))?;
    put_times(alloc, out, magnitude(width, term.times))?;
    put_mono(alloc, out, width, &term.mono, scope)
}

/// Writes the terms of a form with their signs, then its constant.
#[cycle(signed)]
pub(crate) fn put_signed(
    alloc: Global,
    out: &mut Vec<u8>,
    width: Width,
    form: &Form,
    scope: &Scope,
) -> Result<(), NoMemory>
    ensures { OnOk result (out.new.items ≡ out.old.items ++ signed_text (modulus width) (name_of scope.now) form.now) }
{
    let mut first = true;
    for term in &form.terms {
        put_part(alloc, out, width, first, term, scope)?;
        first = false;
    }
    put_signed_constant(alloc, out, width, first, form.constant)
}

// Writes a term of half of a form, if it is in that half.
fn put_half_term(
    alloc: Global,
    out: &mut Vec<u8>,
    width: Width,
    side: bool,
    first: bool,
    term: &Term,
    scope: &Scope,
) -> Result<(), NoMemory>
    ensures { OnOk result (out.new.items ≡ out.old.items ++ half_term (modulus width) side (name_of scope.now) first term.now) }
{
    if is_negative(width, term.times) != side {
        return Ok(());
    }
    put_plus(out, first)?;
    put_times(alloc, out, magnitude(width, term.times))?;
    put_mono(alloc, out, width, &term.mono, scope)
}

// Whether no part was written so far, where this term is the last one.
fn still_first(width: Width, side: bool, first: bool, term: &Term) -> bool
    ensures { result ≡ still_first (modulus width) side first term.now.1 }
{
    first && is_negative(width, term.times) != side
}

// Writes the parts of a form with this sign.
fn put_half(
    alloc: Global,
    out: &mut Vec<u8>,
    width: Width,
    side: bool,
    form: &Form,
    scope: &Scope,
) -> Result<(), NoMemory>
    ensures { OnOk result (out.new.items ≡ out.old.items ++ half_text (modulus width) side (name_of scope.now) form.now) }
{
    let mut first = true;
    for term in &form.terms {
        put_half_term(alloc, out, width, side, first, term, scope)?;
        first = still_first(width, side, first, term);
    }
    put_half_constant(alloc, out, width, side, first, form.constant)
}

fn equation_word(value: bool) -> &'static [u8]
    ensures { result.now ≡ equation_word value }
{
    if value { b" == " } else { b" != " }
}

fn order_word(value: bool) -> &'static [u8]
    ensures { result.now ≡ order_word value }
{
    if value { b" < " } else { b" >= " }
}

// Writes a comparison, or the opposite one if it is false.
fn put_comparison(
    alloc: Global,
    out: &mut Vec<u8>,
    width: Width,
    value: bool,
    comparison: &Atomic,
    scope: &Scope,
) -> Result<(), NoMemory>
    ensures { OnOk result (out.new.items ≡ out.old.items ++ comparison_text (modulus width) (name_of scope.now) value comparison.now) }
{
    match comparison {
        Atomic::Zero(form) => {
            put_half(alloc, out, width, false, form, scope)?;
            put(out, equation_word(value))?;
            put_half(alloc, out, width, true, form, scope)
        }
        Atomic::Less(left, right) => {
            put_signed(alloc, out, width, left, scope)?;
            put(out, order_word(value))?;
            put_signed(alloc, out, width, right, scope)
        }
    }
}

/// Writes a test with its value: its name, with `!` if it is false, or its comparison.
pub(crate) fn put_literal(
    alloc: Global,
    out: &mut Vec<u8>,
    width: Width,
    value: bool,
    row: &TestRow,
    scope: &Scope,
) -> Result<(), NoMemory>
    ensures { OnOk result (out.new.items ≡ out.old.items ++ literal_text (modulus width) (name_of scope.now) value row.now) }
{
    match row {
        TestRow::Named(test) => {
            if !value {
                put(out, b"!")?;
            }
            put_name(out, scope, Meaning::Test(*test))
        }
        TestRow::Compare(comparison) => {
            put_comparison(alloc, out, width, value, comparison, scope)
        }
    }
}

// Writes an action: its name, or its assignment.
fn put_action(
    alloc: Global,
    out: &mut Vec<u8>,
    width: Width,
    row: &ActionRow,
    scope: &Scope,
) -> Result<(), NoMemory>
    ensures { OnOk result (out.new.items ≡ out.old.items ++ action_text (modulus width) (name_of scope.now) row.now) }
{
    match row {
        ActionRow::Named(action) => put_name(out, scope, Meaning::Action(*action)),
        ActionRow::Assign(var, form) => {
            put_name(out, scope, Meaning::Var(*var))?;
            put(out, b" := ")?;
            put_signed(alloc, out, width, form, scope)
        }
    }
}

/// Writes a true test by its row, if there is one.
pub(crate) fn put_test_at(
    alloc: Global,
    out: &mut Vec<u8>,
    width: Width,
    row: Option<&TestRow>,
    scope: &Scope,
) -> Result<(), NoMemory>
    ensures { OnOk result (out.new.items ≡ out.old.items ++ test_at_text (modulus width) (name_of scope.now) (option_map (λ r. r.now) row.entry)) }
{
    match row {
        Some(row) => put_literal(alloc, out, width, true, row, scope),
        None => Ok(()),
    }
}

/// Writes an action by its row, if there is one.
pub(crate) fn put_action_at(
    alloc: Global,
    out: &mut Vec<u8>,
    width: Width,
    row: Option<&ActionRow>,
    scope: &Scope,
) -> Result<(), NoMemory>
    ensures { OnOk result (out.new.items ≡ out.old.items ++ action_at_text (modulus width) (name_of scope.now) (option_map (λ r. r.now) row.entry)) }
{
    match row {
        Some(row) => put_action(alloc, out, width, row, scope),
        None => Ok(()),
    }
}
