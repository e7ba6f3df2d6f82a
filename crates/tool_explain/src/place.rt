//! Where a program is after a string.
ghost use Rattle.std.specs.Prelude.{◌≡◌, IfOk};
ghost use Rattle.tool_explain.specs.Places.{place_of};
ghost use Rattle.tool_explain.specs.Working.Walks.{place_at};

use crate::cursor::Cursor;
use crate::walking::{Stop, walk_list};
use kat_model::{Items, NoMemory};
use std::alloc::Global;
use string_tables::GString;
use while_lang::Flows;

/// Where a program is after a string. Positions are those of the string, from 0. A path is the number of a statement in
/// its list, from 0, and then for each level down the number of the block (0 for the first block or the body of a loop,
/// 1 for the second block) and the number of the statement in it.
#[derive(Drop)]
pub enum Place {
    /// The program has ended at this position.
    Ended(usize),
    /// At this position the program is at the statement with this path, and does not continue: an `abort`, an `assert`
    /// whose test is false, or a loop whose body ends without an action while its test is true.
    Blocked(usize, Items<usize>),
    /// At this position the program is at the action with this path, and the string does not continue with it.
    AtAction(usize, Items<usize>),
}

fn place_at(stop: Option<Stop>, at: usize, path: Vec<usize>) -> Place
    ensures { result ≡ place_at stop at path.items }
{
    match stop {
        None => Place::Ended(at),
        Some(Stop::Blocked) => Place::Blocked(at, Items::of(path)),
        Some(Stop::AtAction) => Place::AtAction(at, Items::of(path)),
    }
}

/// Returns where the program is after the string. It follows the string from its first position, as long as its next
/// action is the next one of the string. Fails only when out of memory.
pub fn place_of(alloc: Global, flows: &Flows, string: &GString) -> Result<Place, NoMemory>
    ensures { IfOk result (λ place. place ≡ place_of flows.now string.now) }
{
    let mut cursor = Cursor::new(string);
    let mut path = Vec::new(alloc);
    let stop = walk_list(&flows.list, &mut cursor, &mut path)?;
    Ok(place_at(stop, cursor.at, path))
}
