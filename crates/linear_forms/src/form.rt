//! Forms, their copies and their sizes.
ghost use Rattle.std.specs.Prelude.{◌≡◌, ◌-◌, ◌^◌, [], ◌∷◌, ◌++◌, min, IfOk, OnOk};
ghost use Rattle.linear_forms.specs.Forms.{product, form_nodes, mono_nodes, form_of, form_of_var, terms_of};
ghost use Rattle.linear_forms.specs.Views.{mono_tree};

use kat_model::NoMemory;
use std::alloc::Global;
use std::marker::Model;

/// A monomial: a variable, numbered from 0, or a product of two forms that is not multiplied out.
#[cycle(form)]
pub enum Mono {
    Var(usize),
    Product(Box<Form>, Box<Form>),
}

// Explicit, so that it is proved once and not in each crate that owns a form, nor at each end of its functions.
impl Drop for Mono {
    #[cycle(form)]
    fn drop(self) {
        match self {
            Mono::Var(_number) => {}
            Mono::Product(_left, _right) => {}
        }
    }
}

/// A monomial and its coefficient.
#[cycle(form)]
#[derive(Drop)]
pub struct Term {
    pub mono: Mono,
    pub times: u64,
}

impl Model for Term {
    ghost use Rattle.linear_forms.specs.Forms.{TermTree};
    ghost use Rattle.linear_forms.specs.Ranks.{mono_rank};
    ghost use Rattle.linear_forms.specs.Codes.{coded_term};

    ghost Value = { TermTree };

    ghost coded = { coded_term };

    ghost use Rattle.linear_forms.specs.Views.{mono_tree};

    ghost view = { λ t. (mono_tree t.mono, t.times) };

    ghost size = { λ t. mono_rank t.0 };

    ghost use Rattle.std.proofs.Common.{arith};
    ghost use Rattle.linear_forms.specs.Falls.{mono_falls};

    ghost size_decreases = { λ a h. Prim.omega (arith, mono_falls a.mono) };
}

/// A sum of terms and a constant. The arithmetic of this crate keeps these conditions: the monomials are strictly
/// ascending, the coefficients are not 0, each number is below 2 to the width, and the two forms of a product are not
/// constant, the lesser first.
#[cycle(form)]
pub struct Form {
    pub terms: Vec<Term>,
    pub constant: u64,
}

// Explicit, as for monomials.
impl Drop for Form {
    #[cycle(form)]
    fn drop(self) {
        let Form {
            terms: _terms,
            constant: _constant,
        } = self;
    }
}

impl Model for Form {
    ghost use Rattle.linear_forms.specs.Forms.{FormTree, form_of};
    ghost use Rattle.linear_forms.specs.Ranks.{form_rank};
    ghost use Rattle.linear_forms.specs.Codes.{coded_form};

    ghost Value = { FormTree };

    ghost coded = { coded_form };

    ghost view = { λ f. form_of f.terms.items f.constant };

    ghost size = { form_rank };

    ghost use Rattle.std.proofs.Common.{arith};
    ghost use Rattle.linear_forms.specs.Falls.{terms_fall};

    ghost size_decreases = { λ a h. Prim.omega (arith, terms_fall a.terms.items a.constant) };
}

/// Returns the monomial that is the product of two forms.
pub(crate) fn new_product(alloc: Global, left: Form, right: Form) -> Result<Mono, NoMemory>
    ensures { IfOk result (λ p. mono_tree p ≡ product left right) }
{
    let left = Box::new(alloc, left)?;
    let right = Box::new(alloc, right)?;
    Ok(Mono::Product(left, right))
}

// Appends a term.
pub(crate) fn push_term(terms: &mut Vec<Term>, mono: Mono, times: u64) -> Result<(), NoMemory>
    ensures { OnOk result (terms.new.items ≡ terms.old.items ++ (mono_tree mono, times) ∷ []) }
{
    Ok(terms.push(Term { mono, times })?)
}

#[cycle(copies)]
pub(crate) fn copy_mono(alloc: Global, mono: &Mono) -> Result<Mono, NoMemory>
    ensures { IfOk result (λ p. mono_tree p ≡ mono_tree mono.now) }
{
    match mono {
        Mono::Var(k) => Ok(Mono::Var(*k)),
        Mono::Product(f, g) => {
            let left = f.copy(alloc)?;
            let right = g.copy(alloc)?;
            new_product(alloc, left, right)
        }
    }
}

impl Form {
    /// Returns the terms of the form.
    pub(crate) fn into_terms(self) -> Vec<Term>
        ensures { result.items ≡ terms_of self }
    {
        let Form {
            terms,
            constant: _constant,
        } = self;
        terms
    }

    /// Returns a copy of the form. Fails only when out of memory.
    #[cycle(copies)]
    pub fn copy(&self, alloc: Global) -> Result<Form, NoMemory>
        ensures { IfOk result (λ f. f ≡ self.now) }
    {
        let mut terms = Vec::new(alloc);
        for term in &self.terms {
            push_term(&mut terms, copy_mono(alloc, &term.mono)?, term.times)?;
        }
        Ok(Form {
            terms,
            constant: self.constant,
        })
    }
}

/// Returns the form that is one monomial with the coefficient 1.
pub(crate) fn form_of_mono(alloc: Global, mono: Mono) -> Result<Form, NoMemory>
    ensures { IfOk result (λ f. f ≡ form_of ((mono_tree mono, 1) ∷ []) 0) }
{
    let mut terms = Vec::new(alloc);
    push_term(&mut terms, mono, 1)?;
    Ok(Form { terms, constant: 0 })
}

/// Returns the form that is one variable, numbered from 0, with the coefficient 1. Fails only when out of memory.
pub(crate) fn variable(alloc: Global, k: usize) -> Result<Form, NoMemory>
    ensures { IfOk result (λ f. f ≡ form_of_var k) }
{
    form_of_mono(alloc, Mono::Var(k))
}

#[cycle(sizes)]
fn mono_size(mono: &Mono) -> u64
    ensures { result ≡ min (mono_nodes (mono_tree mono.now)) (2 ^ 64 - 1) }
{
    match mono {
        Mono::Var(_) => 1,
        Mono::Product(f, g) => form_size(f).saturating_add(form_size(g)).saturating_add(1),
    }
}

/// Returns the number of nodes of a form, saturated at `u64::MAX`: one, and for each term one for a variable, or one
/// and the nodes of both forms of a product.
#[cycle(sizes)]
pub fn form_size(form: &Form) -> u64
    ensures { result ≡ min (form_nodes form.now) (2 ^ 64 - 1) }
{
    let mut total: u64 = 1;
    for term in &form.terms {
        total = total.saturating_add(mono_size(&term.mono));
    }
    total
}
