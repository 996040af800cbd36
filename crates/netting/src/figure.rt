// Figures that net: they have a zero, a sum and an opposite, as whole numbers do.
ghost use Rattle.std.specs.Prelude.{◌≡◌, ◌+◌, ◌≤◌};
ghost use Rattle.netting.specs.Group.{Group, Lawful, limit};

pub trait Figure: Copy {
    const ZERO: Self;

    // What the constant is, for clauses and proofs.
    ghost ZERO: { Self };

    // What nothing, a sum and an opposite mean, and how large a figure is.
    ghost group: { Group Self };

    fn plus(self, other: Self) -> Self
        requires { group.size self + group.size other ≤ limit }
        ensures { result ≡ group.add self other };

    fn opposite(self) -> Self
        requires { group.size self ≤ limit }
        ensures { result ≡ group.neg self };

    ghost zero_is_nothing: { ZERO ≡ group.none };

    ghost lawful: { Lawful group };
}
