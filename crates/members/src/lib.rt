// A member's number: one of 32, counted from 0.
#![tactic(auto)]

ghost use Rattle.std.specs.Prelude.{◌≡◌, ◌<◌, Some, None, cond, nat_lt};

use std::marker::Model;

// How many members there may be.
pub const MEMBERS: usize = 32;

// One of the 32 members. In a clause it is its number.
#[derive(Clone, Copy, Debug, PartialEq, Eq)]
pub struct Member {
    index: usize,
}

impl Model for Member {
    ghost use Rattle.std.specs.Prelude.{ℕ, ◌<◌};

    ghost Value = { ℕ };

    ghost view = { λ m. m.index };

    ghost invariant = { λ m. m.index < 32 };

    ghost inverse = { λ n. record { index = n } };
}

impl Member {
    // The member of that number, if there is one.
    pub fn new(number: usize) -> Option<Member>
        ensures { result ≡ cond (nat_lt number 32) (Some number) None }
    {
        if number < MEMBERS {
            Some(Member { index: number })
        } else {
            None
        }
    }

    pub fn index(self) -> usize
        ensures number { result ≡ self }
        ensures inside { result < 32 }
    {
        self.index
    }
}
