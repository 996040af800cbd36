// The line book: its accounts are a line of each member, and what is drawn on it.
ghost use Rattle.std.specs.Prelude.{◌≡◌, length};

use crate::MEMBERS;
use crate::accounts::{Accounts, Balances};
use crate::book::Book;
use crate::line::Line;
use members::Member;

pub type LineBook = Book<Lines>;

#[derive(Drop)]
pub struct Lines {
    lines: [Line; MEMBERS],
    ghost wide: { length lines ≡ 32 },
}

impl Lines {
    ghost use Rattle.ledger.specs.Lines.{Undrawn};

    // Lines of these limits, of which nothing is drawn. By index: the array's `map` takes four times as long.
    fn with_nothing_drawn(limits: &Balances) -> [Line; MEMBERS]
        ensures { Undrawn limits.now.each result }
    {
        let mut lines = [Line::new(0); MEMBERS];
        for (i, limit) in limits.each.iter().enumerate() {
            lines[i] = Line::new(*limit);
        }
        lines
    }
}

impl Accounts for Lines {
    ghost use Rattle.std.specs.Prelude.{map};
    ghost use Rattle.ledger.specs.Lines.{left, Untouched};
    ghost use Rattle.ledger.specs.Drawn.{each_left};
    ghost use Rattle.std.proofs.Common.{◌∙◌};
    ghost use Rattle.std.proofs.lemmas.List.{length-map};

    ghost holds = { λ b. map left b.lines };

    ghost Fresh = { λ b. Untouched b.lines };

    ghost wide = { λ b. length-map b.lines left ∙ b.wide };

    ghost limited = { λ b. each_left b.lines b.wide };

    // A member's balance is its line, of which nothing is drawn.
    fn open(balances: Balances) -> Lines {
        Lines {
            lines: Lines::with_nothing_drawn(&balances),
        }
    }

    fn fund(&self, member: Member) -> u64 {
        self.lines[member.index()].left()
    }

    fn lower(&mut self, member: Member, amount: u64) {
        let i = member.index();
        self.lines[i] = self.lines[i].draw(amount);
    }

    fn raise(&mut self, member: Member, amount: u64) {
        let i = member.index();
        self.lines[i] = self.lines[i].repay(amount);
    }
}
