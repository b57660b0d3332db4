use crate::log::ExactLog;
use keys::badge::Badge;
use std::test::Fail;
use tally::Tally;

#[test]
fn the_latest_two(rt: HostRuntime) -> Result<(), Fail> {
    let a = Badge { site: 0, card: 1 };
    let b = Badge { site: 0, card: 2 };
    let mut area = [a; 2];
    let mut log = ExactLog::<Badge>::over(&mut area);
    assert!(rt; log.open(1).is_err() && log.open(3).is_err() && log.open(2).is_ok());
    assert!(rt; log.range(a) == (0, 0));
    assert!(rt; log.note(a).is_ok() && log.note(a).is_ok());
    assert!(rt; log.range(a) == (2, 2));
    assert!(rt; log.note(b).is_ok());
    assert!(rt; log.range(a) == (1, 1) && log.range(b) == (1, 1));
    let Some(newest) = log.key_at(0) else {
        return Err(Fail::new("no newest arrival"));
    };
    assert_eq!(rt; newest.card, 2);
    assert!(rt; log.key_at(2).is_none());
    log.clear();
    assert!(rt; log.range(b) == (0, 0));
    Ok(())
}
