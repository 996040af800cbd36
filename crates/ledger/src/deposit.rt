// The deposit book: its accounts are the members' balances.

use crate::accounts::{Accounts, Balances};
use crate::book::Book;
use members::Member;

pub type DepositBook = Book<Balances>;

impl Accounts for Balances {
    ghost holds = { λ b. b.each };

    ghost Fresh = { λ b. Unit {0} };

    ghost wide = { λ b. b.wide };

    ghost limited = { λ b. b.limited };

    fn open(balances: Balances) -> Balances {
        balances
    }

    fn fund(&self, member: Member) -> u64 {
        self.each[member.index()]
    }

    fn lower(&mut self, member: Member, amount: u64) {
        self.each[member.index()] -= amount;
    }

    fn raise(&mut self, member: Member, amount: u64) {
        self.each[member.index()] += amount;
    }
}
