use crate::table::BadgeTable;
use keys::badge::Badge;
use keys::reader::Reader;
use std::test::Fail;

const A: Badge = Badge { site: 0, card: 1 };

const B: Badge = Badge { site: 0, card: 2 };

#[test]
fn one_row_of_one_cell(rt: HostRuntime) -> Result<(), Fail> {
    let mut rows = [None; 1];
    let mut cells = [None; 1];
    let first = Reader::try_from(1)?;
    let second = Reader::try_from(2)?;
    let mut table = BadgeTable::<Reader, Badge>::over(&mut rows, &mut cells);
    assert!(rt; table.open(1, 1).is_ok());
    assert!(rt; table.note(first, A).is_ok() && table.note(first, B).is_ok());
    assert!(rt; table.badge_range(first, A) == (0, 1));
    assert!(rt; table.note(second, A).is_ok() && table.note(second, A).is_ok());
    assert!(rt; table.note(second, A).is_ok());
    assert!(rt; table.badge_range(second, A) == (1, 3));
    assert!(rt; table.badge_range(first, A) == (0, 2));
    assert_eq!(rt; table.reader_range(second).1, 3);
    assert_eq!(rt; table.arrivals(), 5);
    table.clear();
    assert_eq!(rt; table.arrivals(), 0);
    assert!(rt; table.badge_range(second, A) == (0, 0));
    Ok(())
}

#[test]
fn misfit_plans_are_refused(rt: HostRuntime) {
    let mut rows = [None; 2];
    let mut cells = [None; 6];
    let mut table = BadgeTable::<Reader, Badge>::over(&mut rows, &mut cells);
    assert!(rt; table.open(0, 3).is_err() && table.open(2, 0).is_err());
    assert!(rt; table.open(1, 6).is_err() && table.open(2, 2).is_err());
    assert!(rt; table.open(3, 2).is_err() && table.open(65, 1).is_err());
    assert!(rt; table.open(2, 3).is_ok());
}
