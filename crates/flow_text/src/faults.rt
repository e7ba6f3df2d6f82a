//! Faults at a token. Each function fails, so that callers make no fault of their own.
ghost use Rattle.std.specs.Prelude.{◌≡◌, Err};
ghost use Rattle.text_parser.specs.declared.fault.TextFault.TheVariants as fault;
ghost use Rattle.text_parser.specs.TokenParts.{parts_of_token, place_of};
ghost use Rattle.flow_text.specs.Scopes.{sort_fault, unknown};

use text_parser::{TextFault, Token};

/// Fails, since the token denotes something of a sort that is not allowed there.
pub(crate) fn sort_fault<T>(token: &Token) -> Result<T, TextFault>
    ensures { result ≡ sort_fault (parts_of_token token.now) }
{
    Err(TextFault::Sort(token.at))
}

/// Fails, since the token is a name that is not declared.
pub(crate) fn name_fault<T>(token: &Token) -> Result<T, TextFault>
    ensures { result ≡ unknown (parts_of_token token.now) }
{
    Err(TextFault::UnknownName(token.at))
}

/// Fails, since the token repeats an earlier name or item.
pub(crate) fn repeat_fault<T>(token: &Token) -> Result<T, TextFault>
    ensures { result ≡ Err (fault.DoubleName (place_of (parts_of_token token.now))) }
{
    Err(TextFault::DoubleName(token.at))
}

/// Fails, since the token exceeds a limit of the format.
pub(crate) fn limit_fault<T>(token: &Token) -> Result<T, TextFault>
    ensures { result ≡ Err (fault.TooMany (place_of (parts_of_token token.now))) }
{
    Err(TextFault::TooMany(token.at))
}

/// Fails, since the number does not fit its width.
pub(crate) fn width_fault<T>(token: &Token) -> Result<T, TextFault>
    ensures { result ≡ Err (fault.NumberTooWide (place_of (parts_of_token token.now))) }
{
    Err(TextFault::NumberTooWide(token.at))
}
