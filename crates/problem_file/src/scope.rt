//! Scopes of plain names.
ghost use Rattle.std.specs.Prelude.{◌≡◌, ◌≤◌, false, OnOk, IfOk};
ghost use Rattle.kat_model.specs.declared.limits.TheConstants.{MAX_TESTS, MAX_ACTIONS};
ghost use Rattle.text_parser.specs.ScopeParts.{IsIdentifier, IsUnnamed, IsUndeclared, is_term, declared};
ghost use Rattle.problem_file.specs.NumberedScopes.{numbered_scope};
ghost use Rattle.problem_file.specs.Working.Scopes.{IsPlain};

use kat_model::NoMemory;
use std::alloc::Global;
use text_parser::{Kind, Meaning, Scope, TextFault, Token};

/// Declares a name, which must be an identifier and undeclared. The meaning must not be a term and must have no name.
/// Fails only when out of memory.
pub fn declare(scope: &mut Scope, name: &str, meaning: Meaning) -> Result<(), NoMemory>
    requires identifier { IsIdentifier name.now }
    requires undeclared { IsUndeclared scope.old name.now }
    requires no_term { is_term meaning ≡ false }
    requires unnamed { IsUnnamed scope.old meaning }
    ensures { OnOk result (scope.new ≡ declared scope.old name.now meaning) }
{
    let token = Token {
        kind: Kind::Name,
        text: name,
        at: 0,
    };
    match scope.declare(&token, meaning) {
        Ok(()) => Ok(()),
        Err(TextFault::NoMemory) => Err(NoMemory),
        Err(_) => unreachable!(),
    }
}

/// Returns the scope with `tests` tests named `t0`, `t1`, .. and `actions` actions named `a0`, `a1`, .., and nothing
/// else. Fails only when out of memory.
pub fn numbered_scope(alloc: Global, tests: usize, actions: usize) -> Result<Scope, NoMemory>
    ensures { IfOk result (λ scope. scope ≡ numbered_scope tests actions) }
{
    let mut scope = Scope::new(alloc);
    for k in 0..tests {
        let name = format!(in alloc; "t{k}")?;
        declare(&mut scope, name.as_str(), Meaning::Test(k))?;
    }
    for a in 0..actions {
        let name = format!(in alloc; "a{a}")?;
        declare(&mut scope, name.as_str(), Meaning::Action(a))?;
    }
    Ok(scope)
}

/// Returns the scope with `tests` tests named `t0`, `t1`, .. and `actions` actions named `a0`, `a1`, .., at most
/// [`MAX_TESTS`] and [`MAX_ACTIONS`], and nothing else. Fails only when out of memory.
pub fn plain_scope(alloc: Global, tests: usize, actions: usize) -> Result<Scope, NoMemory>
    requires tests { tests ≤ MAX_TESTS }
    requires actions { actions ≤ MAX_ACTIONS }
    ensures { IfOk result (λ scope. IsPlain scope tests actions) }
{
    numbered_scope(alloc, tests, actions)
}
