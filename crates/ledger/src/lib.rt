// What a ledger is: the funds that it means, and what it promises of a charge, a credit, a top-up and a question.
#![tactic(auto)]

ghost use Rattle.std.specs.Prelude.{◌≡◌};
ghost use Rattle.ledger.specs.Funds.{Funds, Whole, fund, decides_charge, decides_credit, decides_top_up, after_charge, after_credit, after_top_up};

mod accounts;
mod book;
pub mod deposit;
pub mod laws;
mod line;
pub mod lines;
mod opening;
#[cfg(test)]
mod tests;
pub mod transfers;

// Members count from 0.
pub use members::MEMBERS;

// The largest amount of a transfer, and the most that a fund holds, in centavos.
pub const AMOUNT_LIMIT: u64 = 200_000_000_000_000_000;

pub const FUND_LIMIT: u64 = 4_000_000_000_000_000_000;

// What a ledger answers to a transfer that it rejects: nothing has moved.
#[derive(Clone, Copy, Debug, PartialEq, Eq)]
pub struct Rejected;

// Treasury's payment system. Members count from 0 to 31, amounts are centavos, and figures may be any.
pub trait Ledger {
    ghost means: { Self → Funds };

    // Moves an amount from a member's fund to the house fund.
    fn charge(&mut self, member: usize, amount: u64) -> Result<(), Rejected>
        ensures answer { result ≡ decides_charge (means self.old) member amount }
        ensures funds { means self.new ≡ after_charge (means self.old) member amount result };

    // Moves an amount from the house fund to a member's fund.
    fn credit(&mut self, member: usize, amount: u64) -> Result<(), Rejected>
        ensures answer { result ≡ decides_credit (means self.old) member amount }
        ensures funds { means self.new ≡ after_credit (means self.old) member amount result };

    // Adds an amount from outside to a member's fund.
    fn top_up(&mut self, member: usize, amount: u64) -> Result<(), Rejected>
        ensures answer { result ≡ decides_top_up (means self.old) member amount }
        ensures funds { means self.new ≡ after_top_up (means self.old) member amount result };

    // A member's fund, and 0 for a member past 31.
    fn member_fund(&self, member: usize) -> u64
        ensures { result ≡ fund (means self.now) member };

    fn house_fund(&self) -> u64
        ensures { result ≡ (means self.now).house };

    // There are 32 members, and every fund is within its limits.
    ghost whole: { (x : Self) → Whole (means x) };
}
