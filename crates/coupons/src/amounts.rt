// The figures of coupons, each within its limits.
use bounded::Bounded;

// Millions of pesos, or thousands of dollars.
pub type Nominal = Bounded<100_000>;

// Centavos for a dollar.
pub type Trm = Bounded<2_000_000>;

// An NPV or a payment, in centavos.
pub type Amount = Bounded<10_000_000_000_000>;

// A coupon or a price alignment.
pub type Centavos = Bounded<1_000_000_000_000_000_000>;

// A rate in points.
pub(crate) type Rate = Bounded<18_000_000_000>;

pub(crate) type Days = Bounded<366>;

// A rate, and the days for which it accrues.
#[derive(Clone, Copy)]
pub(crate) struct Accrual {
    pub(crate) rate: Rate,
    pub(crate) days: Days,
}
