//! Forms and comparisons of forms, as text.
ghost use Rattle.std.specs.Prelude.{◌≡◌, ◌++◌, OnOk};
ghost use Rattle.linear_forms.specs.Views.{mono_tree};
ghost use Rattle.text_print.specs.Printing.{name_of};
ghost use Rattle.kat_report.specs.Shows.{plus_text, times_text, form_text, comparison_text};
ghost use Rattle.kat_report.specs.Working.SumParts.{mono_text, term_text, constant_text};

use kat_model::NoMemory;
use linear_forms::{Atomic, Form, Mono, Term};
use std::alloc::Global;
use text_parser::{Meaning, Scope};
use text_print::{put, put_name, put_number};

// Writes the text before a part of a sum, unless the part is the first.
fn put_plus(out: &mut Vec<u8>, first: bool) -> Result<(), NoMemory>
    ensures { OnOk result (out.new.items ≡ out.old.items ++ plus_text first) }
{
    if first {
        return Ok(());
    }
    put(out, b" + ")
}

// Writes a coefficient other than 1.
fn put_times(alloc: Global, out: &mut Vec<u8>, times: u64) -> Result<(), NoMemory>
    ensures { OnOk result (out.new.items ≡ out.old.items ++ times_text times) }
{
    if times == 1 {
        return Ok(());
    }
    put_number(alloc, out, times)?;
    put(out, b"*")
}

// Writes the constant at the end of a form.
fn put_constant(
    alloc: Global,
    out: &mut Vec<u8>,
    first: bool,
    constant: u64,
) -> Result<(), NoMemory>
    ensures { OnOk result (out.new.items ≡ out.old.items ++ constant_text first constant) }
{
    if !first && constant == 0 {
        return Ok(());
    }
    put_plus(out, first)?;
    put_number(alloc, out, constant)
}

#[cycle(forms)]
fn put_mono(alloc: Global, out: &mut Vec<u8>, mono: &Mono, scope: &Scope) -> Result<(), NoMemory>
    ensures { OnOk result (out.new.items ≡ out.old.items ++ mono_text (name_of scope.now) (mono_tree mono.now)) }
{
    match mono {
        Mono::Var(k) => put_name(out, scope, Meaning::Var(*k)),
        Mono::Product(f, g) => {
            put(out, b"(")?;
            put_form(alloc, out, f, scope)?;
            put(out, b")*(")?;
            put_form(alloc, out, g, scope)?;
            put(out, b")")
        }
    }
}

#[cycle(forms)]
fn put_term(
    alloc: Global,
    out: &mut Vec<u8>,
    first: bool,
    term: &Term,
    scope: &Scope,
) -> Result<(), NoMemory>
    ensures { OnOk result (out.new.items ≡ out.old.items ++ term_text (name_of scope.now) first term.now) }
{
    put_plus(out, first)?;
    put_times(alloc, out, term.times)?;
    put_mono(alloc, out, &term.mono, scope)
}

/// Writes the terms of a form, then its constant.
#[cycle(forms)]
pub(crate) fn put_form(
    alloc: Global,
    out: &mut Vec<u8>,
    form: &Form,
    scope: &Scope,
) -> Result<(), NoMemory>
    ensures { OnOk result (out.new.items ≡ out.old.items ++ form_text (name_of scope.now) form.now) }
{
    let mut first = true;
    for term in &form.terms {
        put_term(alloc, out, first, term, scope)?;
        first = false;
    }
    put_constant(alloc, out, first, form.constant)
}

/// Writes that a form is 0, or that one form is less than another.
pub(crate) fn put_comparison(
    alloc: Global,
    out: &mut Vec<u8>,
    comparison: &Atomic,
    scope: &Scope,
) -> Result<(), NoMemory>
    ensures { OnOk result (out.new.items ≡ out.old.items ++ comparison_text (name_of scope.now) comparison.now) }
{
    match comparison {
        Atomic::Zero(form) => {
            put_form(alloc, out, form, scope)?;
            put(out, b" == 0")
        }
        Atomic::Less(left, right) => {
            put_form(alloc, out, left, scope)?;
            put(out, b" < ")?;
            put_form(alloc, out, right, scope)
        }
    }
}
