// The limits of the figures: what passes has a type of its own.
ghost use Rattle.std.specs.Prelude.{◌≡◌, ◌≤◌, Ok, unsigned_abs};
ghost use Rattle.refusal.specs.Checks.{within, check, ◌then◌};
ghost use Rattle.coupons.specs.Limits.{nominal_check, rate_checks, trm_check, npv_check, overnight_checks};

use crate::amounts::{Accrual, Amount, Nominal, Trm};
use bounded::Bounded;
use refusal::{Refusal, demand, inside};

// A figure from `low` to `high`, or its refusal.
pub fn limited<const LIMIT: u64>(
    low: i64,
    high: i64,
    figure: i64,
    refusal: Refusal,
) -> Result<Bounded<LIMIT>, Refusal>
    requires low { unsigned_abs low ≤ LIMIT }
    requires high { unsigned_abs high ≤ LIMIT }
    ensures { result ≡ check (within low high figure) refusal then Ok figure }
{
    demand(inside(low, high, figure), refusal)?;
    Ok(Bounded::of(figure))
}

// A nominal of a swap.
pub fn nominal(figure: i64) -> Result<Nominal, Refusal>
    ensures { result ≡ nominal_check figure then Ok figure }
{
    limited(1, 100_000, figure, Refusal::Nominal)
}

pub fn trm(figure: i64) -> Result<Trm, Refusal>
    ensures { result ≡ trm_check figure then Ok figure }
{
    limited(1, 2_000_000, figure, Refusal::MarketFigure)
}

// An NPV or a payment.
pub fn amount(figure: i64) -> Result<Amount, Refusal>
    ensures { result ≡ npv_check figure then Ok figure }
{
    limited(
        -10_000_000_000_000,
        10_000_000_000_000,
        figure,
        Refusal::Amount,
    )
}

// A rate with spread in points, and its days.
pub(crate) fn accrual(rate: i64, days: i64) -> Result<Accrual, Refusal>
    ensures { result ≡ rate_checks rate days then Ok (record { rate = rate; days = days }) }
{
    let rate = limited(-10_000_000, 100_000_000, rate, Refusal::MarketFigure)?;
    let days = limited(1, 366, days, Refusal::MarketFigure)?;
    Ok(Accrual { rate, days })
}

// An overnight rate in mills, and its days: with its four limits as parameters, one function of this and the last would be no plainer.
pub(crate) fn overnight(rate: i64, days: i64) -> Result<(Bounded<50_000>, Bounded<10>), Refusal>
    ensures { result ≡ overnight_checks rate days then Ok (rate, days) }
{
    let rate = limited(0, 50_000, rate, Refusal::MarketFigure)?;
    let days = limited(1, 10, days, Refusal::MarketFigure)?;
    Ok((rate, days))
}
