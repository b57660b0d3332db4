use crate::ring::PaneRing;
use cells::cell::Cell;
use keys::badge::Badge;
use tally::Tally;

#[test]
fn one_pane_of_two(rt: HostRuntime) {
    let mut area = [None; 2];
    let mut ring = PaneRing::<Badge>::over(&mut area);
    let a = Badge { site: 0, card: 1 };
    assert!(rt; ring.open(2, 1, 1).is_ok());
    assert!(rt; ring.note(a).is_ok() && ring.note(a).is_ok());
    assert_eq!(rt; ring.range(a), (0, 2));
    assert_eq!(rt; ring.width(), 2);
    assert!(rt; ring.note(a).is_ok());
    assert_eq!(rt; ring.range(a), (1, 3));
    assert_eq!(rt; ring.reach(), 2);
    assert_eq!(rt; ring.places(), 2);
}

#[test]
fn misfit_plans_are_refused(rt: HostRuntime) {
    let mut area = [None; 4];
    let mut ring = PaneRing::<Badge>::over(&mut area);
    assert!(rt; ring.open(0, 1, 2).is_err() && ring.open(65536, 1, 2).is_err());
    assert!(rt; ring.open(1, 0, 4).is_err() && ring.open(1, 65, 1).is_err());
    assert!(rt; ring.open(1, 1, 0).is_err() && ring.open(1, 1, 3).is_err());
    assert!(rt; ring.open(65535, 1, 2).is_ok());
}
