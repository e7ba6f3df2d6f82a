//! Arithmetic modulo 2 to a width.
use crate::expression::Width;

impl Width {
    ghost use Rattle.std.specs.Prelude.{◌≡◌, ◌+◌, ◌-◌, ◌*◌, ◌%◌};
    ghost use Rattle.kat_model.specs.Stores.{modulus};

    /// Returns the greatest number of the width.
    pub fn greatest(self) -> u64
        ensures { result ≡ modulus self - 1 }
    {
        match self {
            Width::W8 => 0xff,
            Width::W16 => 0xffff,
            Width::W32 => 0xffff_ffff,
            Width::W64 => u64::MAX,
        }
    }

    /// Returns the number modulo 2 to the width.
    pub fn residue(self, x: u64) -> u64
        ensures { result ≡ x % modulus self }
    {
        match self {
            Width::W8 => x % 0x100,
            Width::W16 => x % 0x1_0000,
            Width::W32 => x % 0x1_0000_0000,
            Width::W64 => x,
        }
    }

    /// Returns the sum modulo 2 to the width.
    pub fn add(self, x: u64, y: u64) -> u64
        ensures { result ≡ (x + y) % modulus self }
    {
        self.residue(x.wrapping_add(y))
    }

    /// Returns the difference modulo 2 to the width.
    pub fn sub(self, x: u64, y: u64) -> u64
        ensures { result ≡ (x + (modulus self - y % modulus self)) % modulus self }
    {
        self.residue(x.wrapping_sub(self.residue(y)))
    }

    /// Returns the product modulo 2 to the width.
    pub fn mul(self, x: u64, y: u64) -> u64
        ensures { result ≡ (x * y) % modulus self }
    {
        self.residue(x.wrapping_mul(y))
    }
}
