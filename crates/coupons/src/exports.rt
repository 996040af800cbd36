// The formulas by the names that C knows them by, on plain numbers: -2^63, since C has no `Result`, where a figure is outside its limits.
// The crate coupons_c exports them.
ghost use Rattle.std.specs.Prelude.{◌≡◌, false, negsuc, is_ok};
ghost use Rattle.coupons.specs.Formulas.{simple, dollars, alignment};
ghost use Rattle.coupons.specs.Limits.{simple_checks, dollar_checks, alignment_checks, exported};

use crate::amounts::Centavos;
use crate::plain::{alignment, dollars, simple};

pub fn runtsigo_fixed(millions: i64, rate: i64, days: i64) -> i64
    ensures answer { result ≡ exported (simple_checks millions rate days) (simple millions rate days) }
    ensures refused { result ≡ negsuc 9223372036854775807 → is_ok (simple_checks millions rate days) ≡ false }
{
    simple(millions, rate, days).map_or(i64::MIN, Centavos::get)
}

// The same formula as for a fixed coupon: C knows both by their names.
pub fn runtsigo_variable(millions: i64, rate: i64, days: i64) -> i64
    ensures answer { result ≡ exported (simple_checks millions rate days) (simple millions rate days) }
    ensures refused { result ≡ negsuc 9223372036854775807 → is_ok (simple_checks millions rate days) ≡ false }
{
    runtsigo_fixed(millions, rate, days)
}

pub fn runtsigo_dollars(thousands: i64, rate: i64, days: i64, trm: i64) -> i64
    ensures answer { result ≡ exported (dollar_checks thousands rate days trm) (dollars thousands rate days trm) }
    ensures refused { result ≡ negsuc 9223372036854775807 → is_ok (dollar_checks thousands rate days trm) ≡ false }
{
    dollars(thousands, rate, days, trm).map_or(i64::MIN, Centavos::get)
}

pub fn runtsigo_alignment(npv: i64, overnight: i64, days: i64) -> i64
    ensures answer { result ≡ exported (alignment_checks npv overnight days) (alignment npv overnight days) }
    ensures refused { result ≡ negsuc 9223372036854775807 → is_ok (alignment_checks npv overnight days) ≡ false }
{
    alignment(npv, overnight, days).map_or(i64::MIN, Centavos::get)
}
