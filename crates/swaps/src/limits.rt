// The limits of a swap's kind and nominals.
ghost use Rattle.std.specs.Prelude.{◌≡◌, Ok};
ghost use Rattle.refusal.specs.Checks.{◌then◌};
ghost use Rattle.swaps.specs.Limits.{dollars_check, terms_of};

use coupons::amounts::Nominal;
use coupons::legs::Kind;
use coupons::limits::{limited, nominal};
use coupons::lines::Terms;
use refusal::Refusal;

// Dollars are for cross-currency swaps alone.
fn thousands_of(kind: Kind, figure: i64) -> Result<Nominal, Refusal>
    ensures { result ≡ dollars_check kind figure then Ok figure }
{
    match kind {
        Kind::CrossCurrency => nominal(figure),
        _ => limited(0, 0, figure, Refusal::Nominal),
    }
}

// A swap's kind and nominals.
pub fn terms_of(letter: char, millions: i64, thousands: i64) -> Result<Terms, Refusal>
    ensures { result ≡ terms_of letter millions thousands }
{
    let kind = Kind::try_from(letter)?;
    let millions = nominal(millions)?.get();
    let thousands = thousands_of(kind, thousands)?.get();
    Ok(Terms {
        kind,
        millions,
        thousands,
    })
}
