use crate::table::CountTable;
use cells::cell::Cell;
use keys::badge::Badge;
use keys::key::Key;
use keys::reader::Reader;
use keys::refusal::Refusal;
use std::process::Abort;
use std::test::Fail;
use tally::Tally;
use tally::run::Run;

fn takes<K: Key>(table: &mut CountTable<K>, key: K) -> bool {
    table.note(key).is_ok()
}

// Two cells, and arrivals a, b, a, c, then c, then b: for any kind of key.
fn two_cells<K: Key>(rt: &impl Abort, area: &mut [Cell<K::Record, ()>], a: K, b: K, c: K) {
    let mut table = CountTable::<K>::over(area);
    assert!(rt; table.open(2).is_ok());
    assert!(rt; takes(&mut table, a) && takes(&mut table, b));
    assert!(rt; takes(&mut table, a) && takes(&mut table, c));
    assert_eq!(rt; table.width(), 1);
    assert_eq!(rt; table.ceiling(), 1);
    assert!(rt; table.range(a) == (2, 2));
    assert!(rt; table.range(b) == (0, 1) && table.range(c) == (0, 1));
    assert!(rt; takes(&mut table, c));
    assert!(rt; table.range(c) == (1, 2));
    assert!(rt; takes(&mut table, b));
    assert_eq!(rt; table.width(), 2);
    assert_eq!(rt; table.arrivals(), 6);
    assert!(rt; table.key_at(0).is_none() && table.key_at(1).is_none());
    table.clear();
    assert_eq!(rt; table.arrivals(), 0);
    assert_eq!(rt; table.width(), 0);
}

#[test]
fn readers_are_counted(rt: HostRuntime) -> Result<(), Fail> {
    let mut area = [None; 2];
    let a = Reader::try_from(1)?;
    let b = Reader::try_from(2)?;
    let c = Reader::try_from(3)?;
    two_cells(&rt, &mut area, a, b, c);
    Ok(())
}

#[test]
fn badges_are_counted(rt: HostRuntime) {
    let mut area = [None; 2];
    let a = Badge { site: 1, card: 1 };
    let b = Badge { site: 1, card: 2 };
    let c = Badge { site: 2, card: 1 };
    two_cells(&rt, &mut area, a, b, c);
}

#[test]
fn misfit_plans_are_refused(rt: HostRuntime) {
    let mut area = [None; 2];
    let mut table = CountTable::<Badge>::over(&mut area);
    assert!(rt; table.open(1).is_err() && table.open(3).is_err());
    assert!(rt; table.open(0).is_err() && table.open(65).is_err());
    assert!(rt; table.open(2).is_ok());
    let mut none: [Cell<Badge, ()>; 0] = [];
    assert!(rt; CountTable::<Badge>::over(&mut none).open(0).is_err());
    let mut many = [None; 65];
    assert!(rt; CountTable::<Badge>::over(&mut many).open(65).is_err());
}

#[test]
fn a_full_run_is_refused(rt: HostRuntime) -> Result<(), Fail> {
    let mut run = Run::new();
    for _ in 0..99_999_999 {
        run.add()?;
    }
    let mut area = [None; 1];
    let mut table = CountTable::<Badge> {
        cells: &mut area,
        level: 0,
        run,
    };
    let badge = Badge { site: 0, card: 0 };
    assert!(rt; takes(&mut table, badge));
    assert_eq!(rt; table.arrivals(), 100_000_000);
    assert_eq!(rt; table.note(badge), Err(Refusal::RunFull));
    assert!(rt; table.range(badge) == (1, 1));
    Ok(())
}
