// When and why a swap ends, and which end comes first.
ghost use Rattle.std.specs.Prelude.{◌≡◌, [], ◌∷◌, Some};
ghost use Rattle.swaps.specs.Ends.{sooner, end_of, letter_of};
ghost use Rattle.swaps.specs.Sooner.{sooner-total};
ghost use Rattle.swaps.specs.Texts.{end_text};

use crate::state::State;
use crate::swap::Swap;
use keeper::Ordered;
use std::fmt;

// Why a swap ends: at maturity, or in its agreed session.
#[derive(Clone, Copy, Debug, PartialEq, Eq)]
pub enum Mark {
    Maturity,
    Agreed,
}

impl Mark {
    // `char::from` would not say that it is a letter for diaries.
    pub fn letter(self) -> char
        ensures { result ≡ letter_of self }
    {
        match self {
            Mark::Maturity => 'M',
            Mark::Agreed => 'T',
        }
    }
}

impl fmt::Display for Mark {
    ghost output = { λ mark. Some (letter_of mark ∷ []) };

    fn fmt<W: fmt::Write>(&self, f: &mut fmt::Formatter<W>) -> fmt::Result {
        f.write_char(self.letter())
    }
}

// When a swap ends, which swap it is, and why it ends.
#[derive(Clone, Copy, Debug, PartialEq, Eq)]
pub struct End {
    pub session: u32,
    pub number: u32,
    pub mark: Mark,
}

// session:number:letter
impl fmt::Display for End {
    ghost output = { λ end. Some (end_text end) };

    fn fmt<W: fmt::Write>(&self, f: &mut fmt::Formatter<W>) -> fmt::Result {
        let End {
            session,
            number,
            mark,
        } = *self;
        write!(f, "{session}:{number}:{mark}")
    }
}

// Not the library's order: the mark stays out of it.
impl Ordered for End {
    ghost before = { sooner };

    ghost total = { sooner-total };

    fn comes_before(&self, other: &End) -> bool {
        (self.session, self.number) < (other.session, other.number)
    }
}

impl Swap {
    // An agreed swap ends in its agreed session; any other, asked or not, at maturity.
    pub fn end(&self) -> End
        ensures { result ≡ end_of self.now }
    {
        let (session, mark) = match self.state {
            State::Agreed { session, .. } => (session, Mark::Agreed),
            _ => (self.maturity, Mark::Maturity),
        };
        End {
            session,
            number: self.number,
            mark,
        }
    }
}
