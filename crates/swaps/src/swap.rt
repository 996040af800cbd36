// A live swap.
ghost use Rattle.std.specs.Prelude.{◌≡◌};
ghost use Rattle.swaps.specs.Swaps.{party};

use crate::state::State;
use coupons::lines::Terms;
use refusal::{Refusal, demand};

#[derive(Clone, Copy, Debug, PartialEq, Eq)]
pub struct Swap {
    pub number: u32,
    // its accounts
    pub long: u32,
    pub short: u32,
    // its kind and nominals
    pub terms: Terms,
    // the last closing's NPV from the long side, and before the first closing the opening one
    pub npv: i64,
    // the session in which it was accepted
    pub registered: u32,
    pub maturity: u32,
    pub state: State,
}

impl Swap {
    // An account that is not one of its two is refused.
    pub fn check_party(&self, account: u32) -> Result<(), Refusal>
        ensures { result ≡ party self.now account }
    {
        demand(
            self.long == account || self.short == account,
            Refusal::NotParty,
        )
    }
}
