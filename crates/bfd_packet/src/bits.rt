//! The number of an IPv6 address.
ghost use Rattle.std.specs.Prelude.{◌≡◌, Some, nat_eq};
ghost use Rattle.std.proofs.Common.{rules};
ghost use Rattle.std.specs.Cmp.Rules.{comparing};
ghost use Rattle.std.specs.Ordering.{nat_cmp};

use std::cmp::Ordering;
use std::marker::Model;

/// A number of 128 bits, in two halves: a `u128` would be aligned to sixteen bytes, and all that holds an address padded.
#[derive(Clone, Copy, Debug)]
pub struct Bits128 {
    pub high: u64,
    pub low: u64,
}

impl Model for Bits128 {
    ghost use Rattle.std.specs.Prelude.{ℕ, ◌+◌, ◌*◌, ◌^◌, ◌/◌, ◌%◌, ◌<◌};
    ghost use Rattle.std.proofs.lemmas.Nat.{div-mul-add, mod-mul-add};

    ghost Value = { ℕ };

    ghost view = { λ b. b.high * 2 ^ 64 + b.low };

    ghost invariant = { λ b. (b.high < 2 ^ 64) × (b.low < 2 ^ 64) };

    ghost inverse = { λ n. record { high = n / 2 ^ 64; low = n % 2 ^ 64 } };

    ghost inverse_ok = { λ b h i. record {
      high = div-mul-add b.high (2 ^ 64) b.low h.1 i;
      low = mod-mul-add b.high (2 ^ 64) b.low h.1 i;
    } };
}

impl Bits128 {
    /// The halves of the number.
    pub fn of(number: u128) -> Self
        ensures { result ≡ number }
    {
        Bits128 {
            high: (number >> 64) as u64,
            low: (number % (1 << 64)) as u64,
        }
    }

    /// The number of the halves.
    pub fn number(self) -> u128
        ensures { result ≡ self }
    {
        u128::from(self.high) << 64 | u128::from(self.low)
    }
}

impl PartialEq for Bits128 {
    ghost eq = { nat_eq };

    ghost laws = { Prim.search (comparing, rules) };

    fn eq(&self, other: &Bits128) -> bool {
        self.number() == other.number()
    }
}

impl Eq for Bits128 {
    ghost laws = { Prim.search (comparing, rules) };
}

impl PartialOrd for Bits128 {
    ghost partial_cmp = { λ x y. Some (nat_cmp x y) };

    ghost laws = { Prim.search (comparing, rules) };

    fn partial_cmp(&self, other: &Bits128) -> Option<Ordering> {
        Some(self.cmp(other))
    }
}

impl Ord for Bits128 {
    ghost cmp = { nat_cmp };

    ghost total = { Prim.search (comparing, rules) };

    ghost matches_partial_cmp = { Prim.search (comparing, rules) };

    ghost matches_eq = { Prim.search (comparing, rules) };

    fn cmp(&self, other: &Bits128) -> Ordering {
        self.number().cmp(&other.number())
    }
}
