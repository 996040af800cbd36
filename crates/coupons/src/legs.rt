// The kinds of swaps, and the legs that their coupon lines may be of.
ghost use Rattle.std.specs.Prelude.{◌≡◌, [], ◌∷◌, Some};
ghost use Rattle.coupons.specs.Legs.{kind_of, letter_of_kind, KindsReadBack, leg_of, of_kind};

use refusal::Refusal;
use std::fmt;

// An interest-rate swap, an overnight-index swap, a cross-currency swap.
#[derive(Clone, Copy, Debug, PartialEq, Eq)]
pub enum Kind {
    Irs,
    Ois,
    CrossCurrency,
}

impl TryFrom<char> for Kind {
    type Error = Refusal;

    ghost try_from_gives = { λ letter answer. answer ≡ kind_of letter };

    fn try_from(letter: char) -> Result<Kind, Refusal> {
        match letter {
            'I' => Ok(Kind::Irs),
            'O' => Ok(Kind::Ois),
            'C' => Ok(Kind::CrossCurrency),
            _ => Err(Refusal::UnknownKind),
        }
    }
}

// A kind's letter.
impl fmt::Display for Kind {
    ghost output = { λ kind. Some (letter_of_kind kind ∷ []) };

    fn fmt<W: fmt::Write>(&self, f: &mut fmt::Formatter<W>) -> fmt::Result {
        f.write_str(match self {
            Kind::Irs => "I",
            Kind::Ois => "O",
            Kind::CrossCurrency => "C",
        })
    }
}

// What a kind prints is read as that kind again.
pub fn kind_laws()
    ensures { KindsReadBack }
{}

// The kinds of legs are the market's own, so three of them have the same figures.
// A leg and its own figures: a rate in points with spread and its days, or a range of observations.
#[derive(Clone, Copy, Debug, PartialEq, Eq)]
pub enum Leg {
    Fixed { rate: i64, days: i64 },
    Variable { rate: i64, days: i64 },
    Dollars { rate: i64, days: i64 },
    Overnight { first: i64, count: i64 },
}

// A coupon line as a feed brings it.
#[derive(Clone, Copy, Debug, PartialEq, Eq)]
pub struct CouponLine {
    pub swap: i64,
    pub letter: char,
    pub figures: (i64, i64),
}

impl CouponLine {
    // The leg of the line's letter and figures: none for a letter that there is not.
    pub fn leg(&self) -> Option<Leg>
        ensures { result ≡ leg_of self.now.letter self.now.figures.0 self.now.figures.1 }
    {
        let (a, b) = self.figures;
        match self.letter {
            'F' => Some(Leg::Fixed { rate: a, days: b }),
            'V' => Some(Leg::Variable { rate: a, days: b }),
            'U' => Some(Leg::Dollars { rate: a, days: b }),
            'O' => Some(Leg::Overnight { first: a, count: b }),
            _ => None,
        }
    }
}

impl Leg {
    // Whether a swap of that kind has such a leg.
    pub fn is_of(&self, kind: Kind) -> bool
        ensures { result ≡ of_kind kind self.now }
    {
        match (self, kind) {
            (Leg::Fixed { .. }, Kind::Irs | Kind::Ois) => true,
            (Leg::Variable { .. }, Kind::Irs) => true,
            (Leg::Dollars { .. }, Kind::CrossCurrency) => true,
            (Leg::Overnight { .. }, Kind::Ois | Kind::CrossCurrency) => true,
            _ => false,
        }
    }
}
