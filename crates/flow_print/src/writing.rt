//! Appending commas to a text.
ghost use Rattle.flow_print.specs.FormTexts.{comma_text};
ghost use Rattle.flow_print.specs.Working.Written.{Writes};

use kat_model::NoMemory;
use text_print::put;

/// Appends a comma and a space, unless what follows is the first of a list.
pub(crate) fn put_comma(out: &mut Vec<u8>, first: bool) -> Result<(), NoMemory>
    ensures { Writes result out.old out.new (comma_text first) }
{
    if first {
        return Ok(());
    }
    put(out, b", ")
}
