// The figures that a book is opened with: checked in their order, and brought into the book's own types.
ghost use Rattle.std.specs.Prelude.{◌≡◌, ◌≤◌, length, IfOk};
ghost use Rattle.ledger.specs.Funds.{fund_limit};
ghost use Rattle.ledger.specs.Openings.{fund_of, listed, opened, meaning, funds_of};

use crate::accounts::Balances;
use crate::{FUND_LIMIT, MEMBERS};
use refusal::{Fault, Refusal, demand, on_line};

// A fund or a line, if the figure lies within its limits.
// That a fund is within its limit stands in three contracts: a type for it would need a second set of methods beside `Line`.
fn fund_of(figure: i64) -> Result<u64, Refusal>
    ensures answer { result ≡ fund_of figure }
    ensures limited { IfOk result (λ x. x ≤ fund_limit) }
{
    match u64::try_from(figure) {
        Ok(fund) if fund <= FUND_LIMIT => Ok(fund),
        _ => Err(Refusal::Amount),
    }
}

// A fund for each of the 32 members: those of the list, and 0 past it.
fn funds_of(figures: &[i64]) -> Result<Balances, Fault>
    requires { length figures.now ≤ 32 }
    ensures { meaning (λ b. b.each) result ≡ listed figures.now }
{
    let mut each = [0; MEMBERS];
    // by index: of an `iter_mut().zip(..)` no proof knows what was written
    for (i, figure) in figures.iter().enumerate() {
        each[i] = on_line(fund_of(*figure), i as u32 + 1)?;
    }
    Ok(Balances { each })
}

// The members' funds and the house's that a book is opened with.
pub(crate) fn opening(figures: &[i64], house: i64) -> Result<(Balances, u64), Fault>
    ensures answer { meaning funds_of result ≡ opened figures.now house }
    ensures ceiling { IfOk result (λ p. p.1 ≤ fund_limit) }
{
    demand(figures.len() <= MEMBERS, Refusal::ListLength)?;
    let balances = funds_of(figures)?;
    let house = fund_of(house)?;
    Ok((balances, house))
}
