//! The version of the library. `release/generate.py` writes its numbers from the first heading of `CHANGELOG.md`.
ghost use Rattle.std.specs.Prelude.{◌≡◌};
ghost use Rattle.kat_c.specs.VersionNumbers.{version_number};

const MAJOR: u32 = 0;

const MINOR: u32 = 8;

const PATCH: u32 = 0;

/// Gives the version `MAJOR.MINOR.PATCH` of the release that this library belongs to, as one number.
#[unsafe(no_mangle)]
pub extern "C" fn kat_version() -> u32
    ensures { result ≡ version_number 0 8 0 }
{
    1_000_000 * MAJOR + 1_000 * MINOR + PATCH
}
