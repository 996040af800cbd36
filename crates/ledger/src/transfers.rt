// Transfers as values: one is made on any ledger, a list of them is run on one ledger, or on two side by side.
ghost use Rattle.std.specs.Prelude.{◌≡◌, true, ◌++◌, length, drop, Decides, nat_le};
ghost use Rattle.refusal.specs.Checks.{check, raised};
ghost use Rattle.refusal.specs.declared.Refusal.TheVariants.{ListLength};
ghost use Rattle.ledger.specs.Transfers.{decides, after, decisions, funds_after, granted_or};

use crate::{Ledger, Rejected};
use refusal::{Fault, Refusal, demand};

// The three calls of a ledger, which its laws name one by one: so three variants with the same figures.
#[derive(Clone, Copy, Debug, PartialEq, Eq)]
pub enum Transfer {
    Charge { member: usize, amount: u64 },
    Credit { member: usize, amount: u64 },
    TopUp { member: usize, amount: u64 },
}

// Makes one transfer.
pub fn make<L: Ledger>(ledger: &mut L, transfer: Transfer) -> Result<(), Rejected>
    ensures answer { result ≡ decides (L.means ledger.old) transfer }
    ensures funds { L.means ledger.new ≡ after (L.means ledger.old) transfer result }
{
    match transfer {
        Transfer::Charge { member, amount } => ledger.charge(member, amount),
        Transfer::Credit { member, amount } => ledger.credit(member, amount),
        Transfer::TopUp { member, amount } => ledger.top_up(member, amount),
    }
}

// Makes every transfer in its turn and writes what was decided at the front of the answers, whose rest stays.
// Where the answers have too few places it refuses, and nothing moves.
pub fn run<L: Ledger>(
    ledger: &mut L,
    transfers: &[Transfer],
    answers: &mut [Result<(), Rejected>],
) -> Result<(), Fault>
    ensures answer { result ≡ raised (check (nat_le (length transfers.now) (length answers.old)) ListLength) }
    ensures decided { answers.new ≡ granted_or result (decisions (L.means ledger.old) transfers.now ++ drop (length transfers.now) answers.old) answers.old }
    ensures funds { L.means ledger.new ≡ granted_or result (funds_after (L.means ledger.old) transfers.now) (L.means ledger.old) }
{
    demand(transfers.len() <= answers.len(), Refusal::ListLength)?;
    // by index: of an `iter_mut().zip(..)` no proof knows what was written
    for (i, transfer) in transfers.iter().enumerate() {
        answers[i] = make(ledger, *transfer);
    }
    Ok(())
}

// Makes every transfer in its turn on two ledgers, and answers whether they decided all of them alike.
// Two ledgers that mean equal funds do, whatever they are, and end in equal funds.
pub fn side_by_side<L: Ledger, R: Ledger>(
    first: &mut L,
    second: &mut R,
    transfers: &[Transfer],
) -> bool
    ensures answer { Decides result (decisions (L.means first.old) transfers.now ≡ decisions (R.means second.old) transfers.now) }
    ensures first { L.means first.new ≡ funds_after (L.means first.old) transfers.now }
    ensures second { R.means second.new ≡ funds_after (R.means second.old) transfers.now }
    ensures equal { L.means first.old ≡ R.means second.old → (result ≡ true) × (L.means first.new ≡ R.means second.new) }
{
    let mut alike = true;
    for transfer in transfers {
        alike &= make(first, *transfer) == make(second, *transfer);
    }
    alike
}
