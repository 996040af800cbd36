// The one rounding of the engine.
ghost use Rattle.std.specs.Prelude.{◌≡◌, ◌<◌, ◌≤◌, pos, neg_ℤ, int_div, int_rem, unsigned_abs};
ghost use Rattle.coupons.specs.Rounding.{rounded, Nearest};

// Quotient and rest, of which the rest has the dividend's sign. A divisor is a plain number and not a `NonZeroU32`, which would have to be
// unwrapped at every formula's constant.
fn divided(dividend: i64, divisor: u32) -> (i64, i64)
    requires { 0 < divisor }
    ensures quotient { result.0 ≡ int_div dividend (pos divisor) }
    ensures rest { result.1 ≡ int_rem dividend (pos divisor) }
{
    let divisor = i64::from(divisor);
    (dividend / divisor, dividend % divisor)
}

// The whole number nearest to a quotient, halves away from zero.
pub(crate) fn rounded(dividend: i64, divisor: u32) -> i64
    requires divisor { 0 < divisor }
    requires dividend { unsigned_abs dividend ≤ 9000000000000000000 }
    ensures answer { result ≡ rounded dividend divisor }
    ensures nearest { Nearest dividend divisor result }
    ensures odd { rounded (neg_ℤ dividend) divisor ≡ neg_ℤ result }
{
    let (quotient, rest) = divided(dividend, divisor);
    let divisor = i64::from(divisor);
    if 2 * rest >= divisor {
        quotient + 1
    } else if 2 * rest <= -divisor {
        quotient - 1
    } else {
        quotient
    }
}
