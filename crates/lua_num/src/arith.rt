// Arithmetic on whole numbers of 64 bits.
ghost use Rattle.std.specs.Prelude.{◌≡◌, ◌+ℤ◌, ◌-ℤ◌, ◌*ℤ◌};
ghost use Rattle.lua_num.specs.Arith.{wrap, power, negation, outcome};

/// An operator of arithmetic.
#[derive(Clone, Copy, Debug, PartialEq, Eq)]
pub enum ArithOp {
    Add,
    Sub,
    Mul,
    Div,
    Rem,
    Pow,
}

/// An operator of comparison.
#[derive(Clone, Copy, Debug, PartialEq, Eq)]
pub enum CompareOp {
    Eq,
    Lt,
    Le,
}

/// Why an operation on numbers has no result.
#[derive(Clone, Copy, Debug, PartialEq, Eq)]
pub enum NumFault {
    DivideByZero,
    NegativeExponent,
}

/// The sum, wrapped.
pub fn add(a: i64, b: i64) -> i64
    ensures { result ≡ wrap (a +ℤ b) }
{
    a.wrapping_add(b)
}

/// The difference, wrapped.
pub fn sub(a: i64, b: i64) -> i64
    ensures { result ≡ wrap (a -ℤ b) }
{
    a.wrapping_sub(b)
}

/// The product, wrapped.
pub fn mul(a: i64, b: i64) -> i64
    ensures { result ≡ wrap (a *ℤ b) }
{
    a.wrapping_mul(b)
}

/// The number with the other sign, wrapped: the least number is its own.
pub fn neg(a: i64) -> i64
    ensures { result ≡ negation a }
{
    a.wrapping_neg()
}

/// The quotient, truncated toward zero and wrapped: the least number divided by -1 is itself.
pub fn div(a: i64, b: i64) -> Result<i64, NumFault>
    ensures { result ≡ outcome ArithOp.Div a b }
{
    if b == 0 {
        return Err(NumFault::DivideByZero);
    }
    Ok(a.wrapping_div(b))
}

/// The remainder by the floor of the exact quotient, which has the sign of the divisor.
pub fn rem(a: i64, b: i64) -> Result<i64, NumFault>
    ensures { result ≡ outcome ArithOp.Rem a b }
{
    if b == 0 {
        return Err(NumFault::DivideByZero);
    }
    // This has the sign of a, and is 0 or lies between -b and b: where the signs differ, the sum fits.
    let rest = a.wrapping_rem(b);
    if rest != 0 && (rest < 0) != (b < 0) {
        Ok(rest + b)
    } else {
        Ok(rest)
    }
}

/// The product of b factors a, wrapped; 1 where b is 0. It takes at most two products for each binary
/// digit of b.
pub fn pow(a: i64, b: i64) -> Result<i64, NumFault>
    ensures { result ≡ outcome ArithOp.Pow a b }
{
    if b < 0 {
        return Err(NumFault::NegativeExponent);
    }
    Ok(wrapped_power(a, b as u64))
}

// Squares and multiplies, a binary digit of the exponent at a time, the lowest first.
fn wrapped_power(base: i64, exponent: u64) -> i64
    ensures { result ≡ wrap (power base exponent) }
{
    let mut product: i64 = 1;
    let mut square = base;
    let mut digits = exponent;
    while digits > 0 {
        if digits % 2 == 1 {
            product = product.wrapping_mul(square);
        }
        square = square.wrapping_mul(square);
        digits /= 2;
    }
    product
}
