// The worked coupons, through the calls.
use crate::amounts::Centavos;
use crate::exports::{runtsigo_alignment, runtsigo_dollars, runtsigo_fixed};
use crate::legs::{CouponLine, Kind};
use crate::lines::{Terms, coupon};
use crate::overnight::Observation;

#[test]
fn halves_go_away_from_zero(rt: HostRuntime) {
    assert_eq!(rt; runtsigo_fixed(1, 1, 180), 1);
    assert_eq!(rt; runtsigo_fixed(1, 1, 179), 0);
    assert_eq!(rt; runtsigo_fixed(1, -1, 180), -1);
    assert_eq!(rt; runtsigo_fixed(0, 1, 180), i64::MIN);
}

#[test]
fn dollars_and_alignment(rt: HostRuntime) {
    assert_eq!(rt;
        runtsigo_dollars(1_000, 5_000_000, 90, 391_245),
        4_890_562_500
    );
    assert_eq!(rt; runtsigo_alignment(10_000_000_000, 9_000, 3), -7_500_000);
}

#[test]
fn an_overnight_line(rt: HostRuntime) {
    let terms = Terms {
        kind: Kind::Ois,
        millions: 10_000,
        thousands: 0,
    };
    let line = CouponLine {
        swap: 1,
        letter: 'O',
        figures: (0, 2),
    };
    let observations = [
        Observation {
            rate: 9_000,
            days: 1,
        },
        Observation {
            rate: 9_000,
            days: 3,
        },
    ];
    assert_eq!(rt;
        coupon(&terms, 391_245, &line, &observations).map(Centavos::get),
        Ok(1_000_187_556)
    );
}
