//! The lines for what a check accepts.
ghost use Rattle.std.specs.Prelude.{◌≡◌};
ghost use Rattle.kat_report.specs.Acceptances.{accepted_line, accepted_outline_line};

use certificate::Evidence;

/// Returns the line for accepted evidence: `accepted equal` for a certificate, `accepted different` for a string.
pub fn accepted_line(evidence: &Evidence) -> &'static [u8]
    ensures { result.now ≡ accepted_line evidence.now }
{
    match evidence {
        Evidence::Equal(_) => b"accepted equal\n",
        Evidence::Different(_) => b"accepted different\n",
    }
}

/// Returns the line for accepted notes, `accepted outline`.
pub fn accepted_outline_line() -> &'static [u8]
    ensures { result.now ≡ accepted_outline_line }
{
    b"accepted outline\n"
}
