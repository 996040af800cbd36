// The members' side of a book: their 32 funds, which each kind of book keeps in its own way.
ghost use Rattle.std.specs.Prelude.{◌≡◌, ℕ, ◌+◌, ◌-◌, ◌<◌, ◌≤◌, List, length, slice_index, slice_set};
ghost use Rattle.ledger.specs.Funds.{fund_limit};

use crate::MEMBERS;
use members::Member;

// Funds within their limits, one for each member.
#[derive(Drop)]
pub struct Balances {
    pub(crate) each: [u64; MEMBERS],
    ghost wide: { length each ≡ 32 },
    ghost limited: { (k : ℕ) → k < 32 → slice_index each k ≤ fund_limit },
}

// What keeps the members' funds.
pub trait Accounts: Drop {
    ghost holds: { Self → List ℕ };

    // How the accounts stand when they are opened.
    ghost Fresh: { Self → Type 0 };

    fn open(balances: Balances) -> Self
        ensures funds { holds result ≡ balances.each }
        ensures fresh { Fresh result };

    fn fund(&self, member: Member) -> u64
        ensures { result ≡ slice_index (holds self.now) member };

    // Takes an amount from a member's fund.
    fn lower(&mut self, member: Member, amount: u64)
        requires covered { amount ≤ slice_index (holds self.old) member }
        ensures { holds self.new ≡ slice_set (holds self.old) member (slice_index (holds self.old) member - amount) };

    // Adds an amount to a member's fund.
    fn raise(&mut self, member: Member, amount: u64)
        requires room { slice_index (holds self.old) member + amount ≤ fund_limit }
        ensures { holds self.new ≡ slice_set (holds self.old) member (slice_index (holds self.old) member + amount) };

    ghost wide: { (x : Self) → length (holds x) ≡ 32 };

    ghost limited: { (x : Self) (k : ℕ) → k < 32 → slice_index (holds x) k ≤ fund_limit };
}
