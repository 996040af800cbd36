// The formulas on plain figures, which may be any. They leave aside who pays.
ghost use Rattle.std.specs.Prelude.{◌≡◌, Ok};
ghost use Rattle.refusal.specs.Checks.{◌then◌};
ghost use Rattle.coupons.specs.Formulas.{simple, dollars, alignment};
ghost use Rattle.coupons.specs.Limits.{simple_checks, dollar_checks, alignment_checks};

use crate::amounts::Centavos;
use crate::limits::{accrual, nominal};
use crate::{formulas, limits};
use refusal::Refusal;

// A fixed or a variable coupon.
pub fn simple(millions: i64, rate: i64, days: i64) -> Result<Centavos, Refusal>
    ensures { result ≡ simple_checks millions rate days then Ok (simple millions rate days) }
{
    let millions = nominal(millions)?;
    let accrual = accrual(rate, days)?;
    Ok(formulas::simple(millions, accrual))
}

pub fn dollars(thousands: i64, rate: i64, days: i64, trm: i64) -> Result<Centavos, Refusal>
    ensures { result ≡ dollar_checks thousands rate days trm then Ok (dollars thousands rate days trm) }
{
    let thousands = nominal(thousands)?;
    let trm = limits::trm(trm)?;
    let accrual = accrual(rate, days)?;
    Ok(formulas::dollars(thousands, accrual, trm))
}

pub fn alignment(npv: i64, overnight: i64, days: i64) -> Result<Centavos, Refusal>
    ensures { result ≡ alignment_checks npv overnight days then Ok (alignment npv overnight days) }
{
    let npv = limits::amount(npv)?;
    let (overnight, days) = limits::overnight(overnight, days)?;
    Ok(formulas::alignment(npv, overnight, days))
}
