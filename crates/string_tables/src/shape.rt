//! Whether a string fits a problem.
ghost use Rattle.std.specs.Prelude.{◌≡◌};
ghost use Rattle.string_tables.specs.Findings.{misfit as string_misfit};

use crate::string::GString;
use kat_model::Problem;

/// Returns the least position whose atom does not assign every test, or whose action into it is out of range.
pub(crate) fn misfit(problem: &Problem, string: &GString) -> Option<usize>
    ensures { result ≡ string_misfit problem.now string.now }
{
    let tests = problem.tests();
    let actions = problem.actions();
    if string.first.as_slice().len() != tests {
        return Some(0);
    }
    for (k, m) in string.rest.as_slice().iter().enumerate() {
        if m.act >= actions || m.atom.as_slice().len() != tests {
            return Some(k + 1);
        }
    }
    None
}
