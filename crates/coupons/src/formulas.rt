// The formulas of coupons and of price alignment, on figures within their limits.
ghost use Rattle.std.specs.Prelude.{◌≡◌, ◌+◌, ◌*◌, ◌<◌, ◌≤◌, ◌*ℤ◌};
ghost use Rattle.coupons.specs.Rounding.{rounded};
ghost use Rattle.coupons.specs.Formulas.{simple, cents, dollars, alignment};

use crate::amounts::{Accrual, Amount, Centavos, Nominal, Trm};
use crate::rounding::rounded;
use bounded::Bounded;

// A product of three figures by a divisor, rounded.
pub(crate) fn ratio<const A: u64, const B: u64, const C: u64, const MOST: u64>(
    a: Bounded<A>,
    b: Bounded<B>,
    c: Bounded<C>,
    divisor: u32,
) -> Bounded<MOST>
    requires divisor { 0 < divisor }
    requires two { A * B ≤ 9000000000000000000 }
    requires three { A * B * C ≤ 9000000000000000000 }
    requires most { 2 * (A * B * C) + divisor < 2 * ((MOST + 1) * divisor) }
    ensures { result ≡ rounded (a.entry *ℤ b.entry *ℤ c.entry) divisor }
{
    Bounded::of(rounded(a.get() * b.get() * c.get(), divisor))
}

// The coupon of a fixed or a variable leg, and of a compounded rate.
pub(crate) fn simple(millions: Nominal, accrual: Accrual) -> Centavos
    ensures { result ≡ simple millions accrual.rate accrual.days }
{
    ratio(millions, accrual.rate, accrual.days, 360)
}

// The coupon of a dollar leg in cents.
fn cents(thousands: Nominal, accrual: Accrual) -> Bounded<2_000_000_000_000>
    ensures { result ≡ cents thousands accrual.rate accrual.days }
{
    ratio(thousands, accrual.rate, accrual.days, 360_000)
}

// The coupon of a dollar leg.
pub(crate) fn dollars(thousands: Nominal, accrual: Accrual, trm: Trm) -> Centavos
    ensures { result ≡ dollars thousands accrual.rate accrual.days trm }
{
    ratio(cents(thousands, accrual), trm, Bounded::<1>::of(1), 100)
}

// The interest on a previous NPV, against the side that held it.
pub(crate) fn alignment(npv: Amount, overnight: Bounded<50_000>, days: Bounded<10>) -> Centavos
    ensures { result ≡ alignment npv overnight days }
{
    let interest: Centavos = ratio(npv, overnight, days, 36_000_000);
    -interest
}
