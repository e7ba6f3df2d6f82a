//! The programs of a file, by number.
ghost use Rattle.std.specs.Prelude.{◌≡◌, option_map, slice_get};
ghost use Rattle.while_lang.specs.NamedProgs.{prog_parts, parts_of_progs};

use crate::named::NamedProg;

// Returns program `i`.
pub(crate) fn prog_at(progs: &[NamedProg], i: usize) -> Option<&NamedProg>
    ensures { option_map (λ n. prog_parts n.now) result ≡ slice_get (parts_of_progs progs.now) i }
{
    progs.get(i)
}
