// A figure whose size has a limit, which its type tells.
#![tactic(auto)]

ghost use Rattle.std.specs.Prelude.{◌≡◌, ◌<◌, ◌≤◌, Some, None, cond, nat_le, neg_ℤ, unsigned_abs};

use std::marker::Model;
use std::ops::Neg;

// A figure from -LIMIT to LIMIT. In a clause it is a whole number.
#[derive(Clone, Copy, Debug, PartialEq, Eq)]
pub struct Bounded<const LIMIT: u64> {
    figure: i64,
}

impl<const LIMIT: u64> Model for Bounded<LIMIT> {
    ghost use Rattle.std.specs.Prelude.{ℤ, ◌≤◌, unsigned_abs};

    ghost Value = { ℤ };

    ghost view = { λ x. x.figure };

    ghost invariant = { λ x. unsigned_abs x.figure ≤ LIMIT };

    ghost inverse = { λ z. record { figure = z } };
}

impl<const LIMIT: u64> Bounded<LIMIT> {
    // A figure as one of that size, if it is.
    pub fn new(figure: i64) -> Option<Bounded<LIMIT>>
        ensures { result ≡ cond (nat_le (unsigned_abs figure) LIMIT) (Some figure) None }
    {
        if figure.unsigned_abs() <= LIMIT {
            Some(Bounded { figure })
        } else {
            None
        }
    }

    // A figure that is known to be of that size.
    pub fn of(figure: i64) -> Bounded<LIMIT>
        requires { unsigned_abs figure ≤ LIMIT }
        ensures { result ≡ figure }
    {
        Bounded { figure }
    }

    pub fn get(self) -> i64
        ensures figure { result ≡ self.entry }
        ensures bound { unsigned_abs result ≤ LIMIT }
    {
        self.figure
    }
}

impl<const LIMIT: u64> Neg for Bounded<LIMIT> {
    type Output = Bounded<LIMIT>;

    // Every limit that is in use: an i64 has the opposite of each figure but -2^63.
    ghost can_neg = { λ _. LIMIT < 9223372036854775808 };

    ghost neg_gives = { λ x r. r ≡ neg_ℤ x };

    fn neg(self) -> Bounded<LIMIT> {
        Bounded {
            figure: -self.figure,
        }
    }
}
