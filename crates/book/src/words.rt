// What a party says about a live swap: a request to end it early, or the answer to one.
ghost use Rattle.std.specs.Prelude.{◌≡◌, ℕ, ◌≤◌, ℤ, Result};
ghost use Rattle.refusal.specs.declared.Refusal.{Refusal};
ghost use Rattle.swaps.specs.declared.state.Event.{Event};
ghost use Rattle.swaps.specs.declared.swap.Swap.{Swap};
ghost use Rattle.book.specs.Calls.{ask_of, answer_of};

use coupons::limits::amount;
use refusal::{Refusal, counted, demand};
use swaps::state::Event;
use swaps::swap::Swap;

// A request of a party to end a swap early, in any figures: a payment to the long side, and the session.
#[derive(Clone, Copy, Debug, PartialEq, Eq)]
pub struct Request {
    pub number: i64,
    pub account: i64,
    pub payment: i64,
    pub session: i64,
}

// The other party's answer to a request.
#[derive(Clone, Copy, Debug, PartialEq, Eq)]
pub struct Reply {
    pub number: i64,
    pub account: i64,
    pub agrees: bool,
}

pub(crate) trait Word {
    // The number of the swap, and what is asked or answered of it where there are so many accounts and so many sessions have closed.
    ghost named: { Self → ℤ };

    ghost event_of: { ℕ → ℕ → Swap → Self → Result Event Refusal };

    fn number(&self) -> i64
        ensures { result ≡ named self.now };

    // The figures are checked in the order of the refusals.
    fn event(&self, accounts: u32, closed: u32, swap: &Swap) -> Result<Event, Refusal>
        requires { closed ≤ 100000 }
        ensures { result ≡ event_of accounts closed swap.now self.now };
}

impl Word for Request {
    ghost named = { λ r. r.number };

    ghost event_of = { ask_of };

    fn number(&self) -> i64 {
        self.number
    }

    fn event(&self, accounts: u32, closed: u32, swap: &Swap) -> Result<Event, Refusal> {
        let by = counted(0, accounts, self.account, Refusal::OutOfRange)?;
        let payment = amount(self.payment)?.get();
        let session = counted(closed + 3, swap.maturity, self.session, Refusal::Session)?;
        swap.check_party(by)?;
        demand(swap.registered != closed + 1, Refusal::JustRegistered)?;
        Ok(Event::Ask {
            by,
            payment,
            session,
        })
    }
}

impl Word for Reply {
    ghost named = { λ r. r.number };

    ghost event_of = { λ accounts closed s r. answer_of accounts s r };

    fn number(&self) -> i64 {
        self.number
    }

    fn event(&self, accounts: u32, _closed: u32, swap: &Swap) -> Result<Event, Refusal> {
        let by = counted(0, accounts, self.account, Refusal::OutOfRange)?;
        swap.check_party(by)?;
        Ok(if self.agrees {
            Event::Yes { by }
        } else {
            Event::No { by }
        })
    }
}
