// Sets of registers.
ghost use Rattle.std.specs.Prelude.{ℕ, ◌≡◌, ◌≤◌, ◌<◌, ◌&&◌, ◌||◌, ◌==◌, nat_lt, not};
ghost use Rattle.std.specs.Int.{bit_at};
ghost use Rattle.verifier.specs.Registers.{bits_at, has, total, is_in};

/// A set of registers below 512, as bits. A word can name no more registers than that.
#[derive(Clone, Copy, Debug, PartialEq, Eq)]
pub struct RegisterSet {
    at_0: u128,
    at_128: u128,
    at_256: u128,
    at_384: u128,
}

/// A word of bits of which so many lowest ones are set.
fn low_bits(count: u32) -> u128
    ensures { (i : ℕ) → i < 128 → (bit_at result i == 1) ≡ nat_lt i count }
{
    if count < 128 {
        (1 << count) - 1
    } else {
        u128::MAX
    }
}

impl RegisterSet {
    /// The registers below a limit.
    pub fn below(limit: u32) -> RegisterSet
        ensures { (r : ℕ) → has result r ≡ (nat_lt r 512 && nat_lt r limit) }
    {
        RegisterSet {
            at_0: low_bits(limit),
            at_128: low_bits(limit.saturating_sub(128)),
            at_256: low_bits(limit.saturating_sub(256)),
            at_384: low_bits(limit.saturating_sub(384)),
        }
    }

    /// The registers that are not in the set.
    fn others(self) -> RegisterSet
        ensures { (r : ℕ) → has result r ≡ (nat_lt r 512 && not (has self r)) }
    {
        RegisterSet {
            at_0: !self.at_0,
            at_128: !self.at_128,
            at_256: !self.at_256,
            at_384: !self.at_384,
        }
    }

    /// The registers from the first on that are below the end.
    pub fn range(first: u32, end: u32) -> RegisterSet
        ensures { (r : ℕ) → has result r ≡ (nat_lt r 512 && is_in first end r) }
    {
        RegisterSet::below(first)
            .others()
            .both(RegisterSet::below(end))
    }

    /// The registers of both sets.
    pub fn both(self, other: RegisterSet) -> RegisterSet
        ensures has { (r : ℕ) → has result r ≡ (has self r && has other r) }
        ensures less { total result ≤ total self }
        ensures same { total result ≡ total self → result ≡ self }
    {
        RegisterSet {
            at_0: self.at_0 & other.at_0,
            at_128: self.at_128 & other.at_128,
            at_256: self.at_256 & other.at_256,
            at_384: self.at_384 & other.at_384,
        }
    }

    /// The registers of either set.
    pub fn either(self, other: RegisterSet) -> RegisterSet
        ensures { (r : ℕ) → has result r ≡ (has self r || has other r) }
    {
        RegisterSet {
            at_0: self.at_0 | other.at_0,
            at_128: self.at_128 | other.at_128,
            at_256: self.at_256 | other.at_256,
            at_384: self.at_384 | other.at_384,
        }
    }

    /// The registers of this set that are not in the other.
    pub fn without(self, other: RegisterSet) -> RegisterSet
        ensures { (r : ℕ) → has result r ≡ (has self r && not (has other r)) }
    {
        self.both(other.others())
    }

    /// The bits of the 128 registers of a number.
    fn bits(self, number: u32) -> u128
        ensures { result ≡ bits_at self number }
    {
        match number {
            0 => self.at_0,
            1 => self.at_128,
            2 => self.at_256,
            3 => self.at_384,
            _ => 0,
        }
    }

    /// Whether a register is in the set.
    pub fn holds(self, register: u32) -> bool
        ensures { result ≡ has self register }
    {
        self.bits(register / 128) >> (register % 128) & 1 == 1
    }

    /// What a set has to lose is bounded. A law, with nothing to run.
    pub fn bound(self)
        ensures { total self < 1701411834604692317316873037158841057280 }
    {}
}
