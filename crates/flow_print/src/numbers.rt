//! Numbers modulo 2 to a width, as comments write them.
ghost use Rattle.std.specs.Prelude.{◌≡◌, ◌-◌, ◌<◌};
ghost use Rattle.kat_model.specs.Stores.{modulus as modulus_of};
ghost use Rattle.flow_print.specs.FormTexts.{is_minus as has_minus, magnitude as magnitude_of, moves_right as is_moved, side_number as number_of_side};

use kat_model::Width;

fn modulus(width: Width) -> u128
    ensures { result ≡ modulus_of width }
{
    match width {
        Width::W8 => 0x100,
        Width::W16 => 0x1_0000,
        Width::W32 => 0x1_0000_0000,
        Width::W64 => 0x1_0000_0000_0000_0000,
    }
}

/// Returns whether a number is written with a minus: it is nearer to 2 to the width than to 0.
pub(crate) fn is_minus(width: Width, number: u64) -> bool
    ensures { result ≡ has_minus width number }
{
    let modulus = modulus(width);
    let number = u128::from(number);
    modulus < number + number && number < modulus
}

// Returns what is missing to 2 to the width, and 0 for greater numbers.
fn rest(width: Width, number: u64) -> u64
    requires { 0 < number }
    ensures { result ≡ modulus_of width - number }
{
    let modulus = modulus(width);
    let number = u128::from(number);
    modulus.saturating_sub(number) as u64
}

/// Returns the number without its minus.
pub(crate) fn magnitude(width: Width, number: u64) -> u64
    ensures { result ≡ magnitude_of width number }
{
    if is_minus(width, number) {
        return rest(width, number);
    }
    number
}

// Returns whether the constant of an equation is written on the right.
fn moves_right(width: Width, number: u64) -> bool
    ensures { result ≡ is_moved width number }
{
    match width {
        Width::W8 => 0 < number && number < 0x100,
        _ => is_minus(width, number),
    }
}

/// Returns the number that is written on one side of an equation for its constant.
pub(crate) fn side_number(width: Width, right: bool, number: u64) -> u64
    ensures { result ≡ number_of_side width right number }
{
    match (right, moves_right(width, number)) {
        (true, true) => rest(width, number),
        (false, false) => number,
        _ => 0,
    }
}
