// The worked netting example, and what a posting comes to.
ghost use Rattle.std.specs.Prelude.{◌≡◌, pos};
ghost use Rattle.postings.specs.Postings.{posted};

use crate::posting::Posting;
use netting::figure::Figure;
use netting::members::member_net;
use netting::nets::{Entry, nets_into};

fn varied(variation: i64) -> Posting
    ensures { result ≡ posted variation (pos 0) (pos 0) (pos 0) (pos 0) }
{
    Posting {
        variation,
        alignment: 0,
        coupons: 0,
        payment: 0,
        exchange: 0,
    }
}

// Accounts 0, 1 and 2 of members 0, 1 and 1: swap 1 (long 0, short 1) varies by 500, swap 2 (long 2, short 0) by 200.
#[test]
fn what_one_gains_another_loses(rt: HostRuntime) {
    let entries = [
        Entry {
            long: 0,
            short: 1,
            figure: varied(500),
        },
        Entry {
            long: 2,
            short: 0,
            figure: varied(200),
        },
    ];
    let mut statements = [varied(7); 3];
    nets_into(&entries, &mut statements);
    assert_eq!(rt; statements[0], varied(300));
    assert_eq!(rt; statements[1], varied(-500));
    assert_eq!(rt; statements[2], varied(200));
    let members = [0, 1, 1];
    assert_eq!(rt; member_net(&statements, &members, 0), varied(300));
    assert_eq!(rt; member_net(&statements, &members, 1), varied(-300));
}

#[test]
fn a_posting_comes_to_its_five_figures(rt: HostRuntime) {
    let posting = Posting {
        variation: 1,
        alignment: -20,
        coupons: 300,
        payment: -4_000,
        exchange: 50_000,
    };
    assert_eq!(rt; posting.net(), 46_281);
    assert_eq!(rt; posting.opposite().net(), -46_281);
    assert_eq!(rt; posting.plus(posting.opposite()), <Posting as Figure>::ZERO);
}
