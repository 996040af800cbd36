// The static library of the coupon formulas: what a C host calls is what the coupon library answers.
#![tactic(auto)]

ghost use Rattle.std.specs.Prelude.{◌≡◌, false, negsuc, is_ok};
ghost use Rattle.coupons.specs.Formulas.{simple, dollars, alignment};
ghost use Rattle.coupons.specs.Limits.{simple_checks, dollar_checks, alignment_checks, exported};

use coupons::exports;

#[unsafe(no_mangle)]
pub extern "C" fn runtsigo_fixed(millions: i64, rate: i64, days: i64) -> i64
    ensures answer { result ≡ exported (simple_checks millions rate days) (simple millions rate days) }
    ensures refused { result ≡ negsuc 9223372036854775807 → is_ok (simple_checks millions rate days) ≡ false }
{
    exports::runtsigo_fixed(millions, rate, days)
}

#[unsafe(no_mangle)]
pub extern "C" fn runtsigo_variable(millions: i64, rate: i64, days: i64) -> i64
    ensures answer { result ≡ exported (simple_checks millions rate days) (simple millions rate days) }
    ensures refused { result ≡ negsuc 9223372036854775807 → is_ok (simple_checks millions rate days) ≡ false }
{
    exports::runtsigo_variable(millions, rate, days)
}

#[unsafe(no_mangle)]
pub extern "C" fn runtsigo_dollars(thousands: i64, rate: i64, days: i64, trm: i64) -> i64
    ensures answer { result ≡ exported (dollar_checks thousands rate days trm) (dollars thousands rate days trm) }
    ensures refused { result ≡ negsuc 9223372036854775807 → is_ok (dollar_checks thousands rate days trm) ≡ false }
{
    exports::runtsigo_dollars(thousands, rate, days, trm)
}

#[unsafe(no_mangle)]
pub extern "C" fn runtsigo_alignment(npv: i64, overnight: i64, days: i64) -> i64
    ensures answer { result ≡ exported (alignment_checks npv overnight days) (alignment npv overnight days) }
    ensures refused { result ≡ negsuc 9223372036854775807 → is_ok (alignment_checks npv overnight days) ≡ false }
{
    exports::runtsigo_alignment(npv, overnight, days)
}
