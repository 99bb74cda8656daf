//! Sums, products and quotients of 64 bits, or none.

ghost use Rattle.std.specs.Prelude.{◌≡◌, ◌+ℤ◌, ◌-ℤ◌, ◌*ℤ◌};
ghost use Rattle.cm_conditions.specs.Arithmetic.{in_range, truth, div_of, mod_of};

/// The sum, where it has 64 bits.
pub(crate) fn sum(x: i64, y: i64) -> Option<i64>
    ensures { result ≡ in_range (x +ℤ y) }
{
    x.checked_add(y)
}

/// The difference, where it has 64 bits.
pub(crate) fn difference(x: i64, y: i64) -> Option<i64>
    ensures { result ≡ in_range (x -ℤ y) }
{
    x.checked_sub(y)
}

/// The product, where it has 64 bits.
pub(crate) fn product(x: i64, y: i64) -> Option<i64>
    ensures { result ≡ in_range (x *ℤ y) }
{
    x.checked_mul(y)
}

/// The quotient rounded down, where it has 64 bits and the divisor isn't 0.
pub(crate) fn div(x: i64, y: i64) -> Option<i64>
    ensures { result ≡ div_of x y }
{
    let quotient = x.checked_div_euclid(y)?;
    if y < 0 && x.wrapping_rem_euclid(y) > 0 {
        quotient.checked_sub(1)
    } else {
        Some(quotient)
    }
}

/// The remainder of the division that rounds down, where the divisor isn't 0.
pub(crate) fn modulo(x: i64, y: i64) -> Option<i64>
    ensures { result ≡ mod_of x y }
{
    if y == 0 {
        return None;
    }
    let rest = x.wrapping_rem_euclid(y);
    if y < 0 && rest > 0 {
        rest.checked_add(y)
    } else {
        Some(rest)
    }
}

/// 1 or 0.
pub(crate) fn truth(holds: bool) -> i64
    ensures { result ≡ truth holds }
{
    if holds { 1 } else { 0 }
}
