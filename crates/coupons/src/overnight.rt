// The coupon of an overnight leg: observations are checked, then compounded in their order.
ghost use Rattle.std.specs.Prelude.{◌≡◌, ◌+◌, ◌<◌, ◌≤◌, pos, IfOk};
ghost use Rattle.coupons.specs.Overnight.{range_checks, range_of, day_after, days_from, factor_of, overnight, Good};

use crate::amounts::{Accrual, Centavos, Days, Nominal};
use crate::factor::Factor;
use crate::formulas::simple;
use crate::limits;
use crate::window::Window;
use refusal::{Fault, Refusal, demand, inside, on_observation};

// An overnight rate in mills, and the days for which it holds.
#[derive(Clone, Copy, Debug, PartialEq, Eq)]
pub struct Observation {
    pub rate: i64,
    pub days: i64,
}

// The range of a line's observations lies within their list.
fn check_range(len: usize, first: i64, count: i64) -> Result<(), Refusal>
    requires { len < 1000000000000000000 }
    ensures { result ≡ range_checks len first count }
{
    demand(inside(1, 366, count), Refusal::ListLength)?;
    demand(inside(0, len as i64 - count, first), Refusal::ListLength)
}

// Where a line's observations begin and end in their list.
pub(crate) fn range(len: usize, first: i64, count: i64) -> Result<(usize, usize), Refusal>
    requires { len < 1000000000000000000 }
    ensures answer { result ≡ range_of len first count }
    ensures some { IfOk result (λ p. p.0 < p.1) }
    ensures few { IfOk result (λ p. p.1 ≤ p.0 + 366) }
    ensures within { IfOk result (λ p. p.1 ≤ len) }
{
    check_range(len, first, count)?;
    let start = first as usize;
    Ok((start, start + count as usize))
}

// The days with one observation more.
fn day_after(days: Days, observation: &Observation) -> Result<Days, Refusal>
    ensures { result ≡ day_after days observation.now }
{
    limits::overnight(observation.rate, observation.days)?;
    let sum = days.get() + observation.days;
    demand(sum <= 366, Refusal::MarketFigure)?;
    Ok(Days::of(sum))
}

// The days of the observations, each of which is checked in its turn.
fn days_of(window: Window) -> Result<Days, Fault>
    ensures { result ≡ days_from 1 (pos 0) window.entry.observations.now }
{
    let mut days = Days::of(0);
    for (i, observation) in window.observations.iter().enumerate() {
        days = on_observation(day_after(days, observation), i as u32 + 1)?;
    }
    Ok(days)
}

// The factor after the observations, which starts at 10^11. It is the same walk as for the days, and one of both would take a step as a closure
// that may refuse.
fn factor_of(window: Window) -> Result<Factor, Fault>
    requires { Good window.observations.now }
    ensures { result ≡ factor_of window.entry.observations.now }
{
    let mut factor = Factor::start();
    for (i, observation) in window.observations.iter().enumerate() {
        factor = on_observation(factor.after(observation), i as u32 + 1)?;
    }
    Ok(factor)
}

// The coupon of an overnight leg on its observations.
pub(crate) fn overnight(millions: Nominal, window: Window) -> Result<Centavos, Fault>
    ensures { result ≡ overnight millions window.entry.observations.now }
{
    let days = days_of(window)?;
    let rate = factor_of(window)?.points(days);
    Ok(simple(millions, Accrual { rate, days }))
}
