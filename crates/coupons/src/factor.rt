// The factor of an overnight leg: what compounding has made of 10^11.
ghost use Rattle.std.specs.Prelude.{◌≡◌, pos, ◌≤ℤ◌, IfOk, Ok, int_le};
ghost use Rattle.refusal.specs.Checks.{check, ◌then◌};
ghost use Rattle.refusal.specs.declared.Refusal.TheVariants as refusals;
ghost use Rattle.coupons.specs.Overnight.{growth, points, Modest};

use crate::amounts::{Days, Rate};
use crate::formulas::ratio;
use crate::overnight::Observation;
use bounded::Bounded;
use refusal::{Refusal, demand};
use std::marker::Model;

// From 10^11 to 1.5 * 10^11. In a clause it is a whole number.
#[derive(Clone, Copy)]
pub(crate) struct Factor {
    figure: Bounded<150_000_000_000>,
}

impl Model for Factor {
    ghost use Rattle.std.specs.Prelude.{ℤ, pos, ◌≤ℤ◌};

    ghost Value = { ℤ };

    ghost view = { λ f. f.figure };

    ghost invariant = { λ f. pos 100000000000 ≤ℤ f.figure };

    ghost inverse = { λ z. record { figure = z } };
}

impl Factor {
    pub(crate) fn start() -> Factor
        ensures { result ≡ pos 100000000000 }
    {
        Factor {
            figure: Bounded::of(100_000_000_000),
        }
    }

    // The factor with one observation more: it never falls, and has a limit.
    pub(crate) fn after(self, observation: &Observation) -> Result<Factor, Refusal>
        requires { Modest observation.now }
        ensures { result ≡ check (int_le (growth self observation.now) (pos 150000000000)) refusals.Factor then Ok (growth self observation.now) }
    {
        let weight: Bounded<36_500_000> = Bounded::of(
            36_000_000 + observation.rate * observation.days,
        );
        let grown: Bounded<200_000_000_000> = ratio(
            self.figure,
            weight,
            Bounded::<1>::of(1),
            36_000_000,
        );
        demand(grown.get() <= 150_000_000_000, Refusal::Factor)?;
        Ok(Factor {
            figure: Bounded::of(grown.get()),
        })
    }

    // The compounded rate.
    pub(crate) fn points(self, days: Days) -> Rate
        requires { pos 1 ≤ℤ days }
        ensures { result ≡ points self days }
    {
        let gain: Bounded<50_000_000_000> = Bounded::of(self.figure.get() - 100_000_000_000);
        let divisor = 25 * days.get() as u32;
        ratio(gain, Bounded::<9>::of(9), Bounded::<1>::of(1), divisor)
    }
}
