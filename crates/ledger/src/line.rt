// A member's line, and how much of it is drawn: below 0 where the member has paid in more than it drew.
ghost use Rattle.std.specs.Prelude.{◌≡◌, ◌≤◌};
ghost use Rattle.ledger.specs.Funds.{fund_limit};
ghost use Rattle.ledger.specs.Drawing.{Fair};

#[derive(Clone, Copy)]
pub(crate) struct Line {
    limit: u64,
    drawn: i64,
    ghost fair: { Fair limit drawn },
}

impl Line {
    ghost use Rattle.std.specs.Prelude.{◌+◌, pos, neg_ℤ};
    ghost use Rattle.ledger.specs.Lines.{left, DrawnBy};

    // A line with nothing drawn.
    pub(crate) fn new(limit: u64) -> Line
        requires { limit ≤ fund_limit }
        ensures limit { result.limit ≡ limit }
        ensures drawn { result.drawn ≡ pos 0 }
    {
        Line { limit, drawn: 0 }
    }

    // What the member may still draw.
    pub(crate) fn left(self) -> u64
        ensures { result ≡ left self }
    {
        (self.limit as i64 - self.drawn) as u64
    }

    // The line with an amount drawn on it.
    pub(crate) fn draw(mut self, amount: u64) -> Line
        requires covered { amount ≤ left self }
        ensures { DrawnBy self (pos amount) result }
    {
        self.drawn += amount as i64;
        self
    }

    // The line with an amount paid back.
    pub(crate) fn repay(mut self, amount: u64) -> Line
        requires room { left self + amount ≤ fund_limit }
        ensures { DrawnBy self (neg_ℤ (pos amount)) result }
    {
        self.drawn -= amount as i64;
        self
    }
}
