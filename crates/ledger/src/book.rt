// A book: the members' accounts and the house fund. What it decides is written once, whatever keeps the accounts.
ghost use Rattle.std.specs.Prelude.{◌≡◌, ◌≤◌, IfOk};
ghost use Rattle.ledger.specs.Funds.{provided, approved, good_amount, covers, room, fund_limit};

use crate::accounts::Accounts;
use crate::opening::opening;
use crate::{AMOUNT_LIMIT, FUND_LIMIT, Ledger, Rejected};
use members::Member;
use refusal::{Fault, demand};

#[derive(Drop)]
pub struct Book<A> {
    accounts: A,
    house: u64,
    ghost ceiling: { house ≤ fund_limit },
}

// Whether an amount may come from outside into a fund.
fn decide_inflow(amount: u64, to: u64) -> Result<(), Rejected>
    ensures { result ≡ provided (good_amount amount) (provided (room to amount) approved) }
{
    demand((1..=AMOUNT_LIMIT).contains(&amount), Rejected)?;
    demand(to <= FUND_LIMIT - amount, Rejected)
}

// Whether an amount may move from one fund to another.
fn decide_move(amount: u64, from: u64, to: u64) -> Result<(), Rejected>
    ensures { result ≡ provided (good_amount amount) (provided (covers from amount) (provided (room to amount) approved)) }
{
    demand(amount <= from, Rejected)?;
    decide_inflow(amount, to)
}

impl<A: Accounts> Book<A> {
    ghost use Rattle.ledger.specs.Books.{book_funds};
    ghost use Rattle.ledger.specs.Openings.{opened, meaning};

    // A book with these funds of the first members, 0 for the others, and this house fund.
    pub fn open(funds: &[i64], house: i64) -> Result<Book<A>, Fault>
        ensures funds { meaning (book_funds A.holds) result ≡ opened funds.now house }
        ensures fresh { IfOk result (λ b. A.Fresh b.accounts) }
    {
        let (balances, house) = opening(funds, house)?;
        Ok(Book {
            accounts: A::open(balances),
            house,
        })
    }
}

impl<A: Accounts> Ledger for Book<A> {
    ghost use Rattle.ledger.specs.Books.{book_funds};

    ghost means = { book_funds A.holds };

    ghost whole = { λ b. (A.wide b.accounts, A.limited b.accounts, b.ceiling) };

    fn charge(&mut self, member: usize, amount: u64) -> Result<(), Rejected> {
        let member = Member::new(member).ok_or(Rejected)?;
        let fund = self.accounts.fund(member);
        decide_move(amount, fund, self.house)?;
        self.accounts.lower(member, amount);
        self.house += amount;
        Ok(())
    }

    // The mirror of a charge: one function of both would take a side and two funds apart, and be no plainer.
    fn credit(&mut self, member: usize, amount: u64) -> Result<(), Rejected> {
        let member = Member::new(member).ok_or(Rejected)?;
        let fund = self.accounts.fund(member);
        decide_move(amount, self.house, fund)?;
        self.accounts.raise(member, amount);
        self.house -= amount;
        Ok(())
    }

    fn top_up(&mut self, member: usize, amount: u64) -> Result<(), Rejected> {
        let member = Member::new(member).ok_or(Rejected)?;
        let fund = self.accounts.fund(member);
        decide_inflow(amount, fund)?;
        self.accounts.raise(member, amount);
        Ok(())
    }

    // 0 past the last member: a question is never refused, by the ledger's rule.
    fn member_fund(&self, member: usize) -> u64 {
        match Member::new(member) {
            Some(member) => self.accounts.fund(member),
            None => 0,
        }
    }

    fn house_fund(&self) -> u64 {
        self.house
    }
}
