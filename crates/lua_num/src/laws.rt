// Laws of the definitions, with nothing to run.
ghost use Rattle.std.specs.Prelude.{◌≡◌, ◌≢◌, ◌↔◌, ℕ, ℤ, pos, List, Some};
ghost use Rattle.lua_num.specs.Arith.{wrap, floor_remainder};
ghost use Rattle.lua_num.specs.Numeral.{numeral_number, text_number};
ghost use Rattle.lua_num.specs.Meets.{IsWrapped, IsFloorRemainder, IsNumeral, IsNumberText};

/// A wrapped number fits 64 bits, and differs from the number by a multiple of 2^64.
pub fn wrap_is_wrapped()
    ensures { (z : ℤ) → IsWrapped z (wrap z) }
{}

/// The remainder goes by the floor of the exact quotient: it has the sign of the divisor, or is 0.
pub fn remainder_is_floor()
    ensures { (a b : ℤ) → b ≢ pos 0 → IsFloorRemainder a b (floor_remainder a b) }
{}

/// A text has a number as a numeral exactly where it writes that number.
pub fn numeral_writes()
    ensures { (text : List ℕ) (n : ℤ) → (numeral_number text ≡ Some n) ↔ IsNumeral text n }
{}

/// A string is taken as a number exactly where it writes that number.
pub fn text_number_writes()
    ensures { (text : List ℕ) (n : ℤ) → (text_number text ≡ Some n) ↔ IsNumberText text n }
{}
