//! Conversions of numbers from one width to another.
ghost use Rattle.std.specs.Prelude.{◌≡◌, ◌+◌, ◌-◌, ◌^◌, ◌<◌, if◌then◌else◌};
ghost use Rattle.kat_model.specs.Stores.{modulus};
ghost use Rattle.flow_model.specs.Interpretations.{is_negative as is_negative_number, conversion as number_conversion};

use kat_model::Width;

// Returns whether a number of a width is negative as two's complement.
fn is_negative(width: Width, number: u64) -> bool
    ensures { result ≡ is_negative_number width number }
{
    match width {
        Width::W8 => number >= 0x80,
        Width::W16 => number >= 0x8000,
        Width::W32 => number >= 0x8000_0000,
        Width::W64 => number >= 0x8000_0000_0000_0000,
    }
}

// Returns the number of 64 bits with the same value as two's complement.
fn sign_extended(width: Width, number: u64) -> u64
    requires { number < modulus width }
    ensures { result ≡ (if is_negative_number width number then number + (2 ^ 64 - modulus width) else number) }
{
    if is_negative(width, number) {
        return number + (u64::MAX - width.greatest());
    }
    number
}

/// Converts a number of the width `from` to the width `to`, as two's complement if `signed`.
pub fn convert_number(signed: bool, from: Width, to: Width, number: u64) -> u64
    requires { number < modulus from }
    ensures { result ≡ number_conversion signed from to number }
{
    if signed {
        return to.residue(sign_extended(from, number));
    }
    to.residue(number)
}
