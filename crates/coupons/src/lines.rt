// The coupon of a line, signed for the long side.
ghost use Rattle.std.specs.Prelude.{◌≡◌, ◌≤◌, unsigned_abs};
ghost use Rattle.coupons.specs.Legs.{leg_of};
ghost use Rattle.coupons.specs.Lines.{overnight_coupon, leg_coupon, line_coupon};

use crate::amounts::{Centavos, Nominal, Trm};
use crate::formulas::{dollars, simple};
use crate::legs::{CouponLine, Kind, Leg};
use crate::limits::accrual;
use crate::overnight::{Observation, overnight, range};
use crate::window::Window;
use refusal::{Fault, Refusal, demand};

// What a coupon depends on of its swap: millions of pesos, and thousands of dollars.
#[derive(Clone, Copy, Debug, PartialEq, Eq)]
pub struct Terms {
    pub kind: Kind,
    pub millions: i64,
    pub thousands: i64,
}

// An overnight coupon on a range of the observations.
fn overnight_coupon(
    millions: Nominal,
    first: i64,
    count: i64,
    observations: &[Observation],
) -> Result<Centavos, Fault>
    ensures { result ≡ overnight_coupon millions first count observations.now }
{
    let (start, end) = range(observations.len(), first, count)?;
    let observations = &observations[start..end];
    overnight(millions, Window { observations })
}

// A leg's coupon for the long side: it pays fixed and dollar legs, and receives the others.
fn leg_coupon(
    millions: Nominal,
    thousands: Nominal,
    trm: Trm,
    leg: Leg,
    observations: &[Observation],
) -> Result<Centavos, Fault>
    ensures { result ≡ leg_coupon millions thousands trm leg observations.now }
{
    match leg {
        Leg::Fixed { rate, days } => Ok(-simple(millions, accrual(rate, days)?)),
        Leg::Variable { rate, days } => Ok(simple(millions, accrual(rate, days)?)),
        Leg::Dollars { rate, days } => Ok(-dollars(thousands, accrual(rate, days)?, trm)),
        Leg::Overnight { first, count } => overnight_coupon(millions, first, count, observations),
    }
}

// The coupon of a line for the long side. Its swap's nominals and the TRM are within their limits.
pub fn coupon(
    terms: &Terms,
    trm: i64,
    line: &CouponLine,
    observations: &[Observation],
) -> Result<Centavos, Fault>
    requires millions { unsigned_abs terms.now.millions ≤ 100000 }
    requires thousands { unsigned_abs terms.now.thousands ≤ 100000 }
    requires trm { unsigned_abs trm ≤ 2000000 }
    ensures answer { result ≡ line_coupon terms.now trm (leg_of line.now.letter line.now.figures.0 line.now.figures.1) observations.now }
{
    let leg = line.leg().ok_or(Refusal::Leg)?;
    demand(leg.is_of(terms.kind), Refusal::Leg)?;
    let millions = Nominal::of(terms.millions);
    let thousands = Nominal::of(terms.thousands);
    leg_coupon(millions, thousands, Trm::of(trm), leg, observations)
}
