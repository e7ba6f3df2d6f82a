//! Appends to lists.
ghost use Rattle.std.specs.Prelude.{◌≡◌, ◌∷◌, ◌++◌, [], OnOk};

use crate::tree::NoMemory;

/// Appends to any list. It is proved once for members of all types.
pub fn append<T: Drop>(list: &mut Vec<T>, member: T) -> Result<(), NoMemory>
    ensures { OnOk result (list.new.items ≡ list.old.items ++ member ∷ []) }
{
    Ok(list.push(member)?)
}
