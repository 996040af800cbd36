// Whole numbers as figures, and pairs of figures.
ghost use Rattle.std.specs.Prelude.{pos, refl};
ghost use Rattle.netting.specs.Whole.{wholes, pair_of};
ghost use Rattle.netting.specs.Wholes.{wholes_lawful, both, pair_lawful};

use crate::figure::Figure;

impl Figure for i64 {
    const ZERO: i64 = 0;

    ghost ZERO = { pos 0 };

    ghost group = { wholes };

    ghost zero_is_nothing = { refl };

    ghost lawful = { wholes_lawful };

    fn plus(self, other: i64) -> i64 {
        self + other
    }

    fn opposite(self) -> i64 {
        -self
    }
}

// A pair of figures nets each by itself, as a node's two sensitivities do.
impl<F: Figure> Figure for (F, F) {
    const ZERO: (F, F) = (F::ZERO, F::ZERO);

    ghost ZERO = { (F.ZERO, F.ZERO) };

    ghost group = { pair_of F.group };

    ghost zero_is_nothing = { both F.zero_is_nothing F.zero_is_nothing };

    ghost lawful = { pair_lawful F.lawful };

    fn plus(self, other: (F, F)) -> (F, F) {
        (self.0.plus(other.0), self.1.plus(other.1))
    }

    fn opposite(self) -> (F, F) {
        (self.0.opposite(), self.1.opposite())
    }
}
