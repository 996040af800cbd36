// Examples of faults and checks.
use crate::*;

#[test]
fn a_fault_grows_by_its_place(rt: HostRuntime) {
    let bare = Fault::from(Refusal::Factor);
    assert_eq!(rt; bare.line(), 0);
    assert_eq!(rt; bare.observation(), 0);
    let placed = bare.at_observation(3).at_line(2);
    assert_eq!(rt; placed.refusal(), Refusal::Factor);
    assert_eq!(rt; placed.line(), 2);
    assert_eq!(rt; placed.observation(), 3);
}

#[test]
fn numbers_are_the_published_ones(rt: HostRuntime) {
    assert_eq!(rt; Refusal::OutOfRange.number(), 1);
    assert_eq!(rt; Refusal::BadSheet.number(), 13);
    assert_eq!(rt; Refusal::SettlementUnderWay.number(), 20);
    assert_eq!(rt; Refusal::NpvNotZero.number(), 31);
}

#[test]
fn limits_are_inclusive(rt: HostRuntime) {
    assert!(rt; inside(-3, 5, -3));
    assert!(rt; inside(-3, 5, 5));
    assert!(rt; !inside(-3, 5, -4));
    assert!(rt; !inside(-3, 5, 6));
    assert_eq!(rt; demand(false, Refusal::Nominal), Err(Refusal::Nominal));
}
