//! The program that a word of the command line names.
ghost use Rattle.std.specs.Prelude.{◌≡◌};
ghost use Rattle.std.specs.Option.{option_map};
ghost use Rattle.tool_commands.specs.ProgramWords.{program_of};

use while_lang::{File, Prog};

/// Returns the program of the file with this name, if it is concrete: no named test and no action occurs in it. `None`
/// if there is no such program.
pub fn program_of<'a>(file: &'a File, name: &str) -> Option<&'a Prog>
    ensures { option_map (λ p. p.now) result ≡ program_of file.now name.now }
{
    match file.prog(name) {
        Some(prog) if prog.concrete() => Some(prog),
        _ => None,
    }
}
