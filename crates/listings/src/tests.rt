use crate::badge_listing::{gather_badges, list_badges};
use crate::reader_listing::{gather_readers, list_readers};
use crate::row::{BadgeRow, ReaderRow};
use badgetable::table::BadgeTable;
use counttable::table::CountTable;
use keys::badge::Badge;
use keys::reader::Reader;
use keys::refusal::Refusal;
use keys::share::Fraction;
use std::test::Fail;
use tally::Tally;

// Six events, each a reader and a card.
const EVENTS: [(u16, u16); 6] = [(7, 500), (7, 501), (9, 500), (7, 500), (9, 500), (7, 500)];

fn badge(card: u16) -> Badge {
    Badge { site: 12, card }
}

fn share(p: u16, q: u16) -> Fraction {
    Fraction { p, q }
}

fn reader_row(key: u16, low: u32, high: u32) -> ReaderRow<u16> {
    ReaderRow { key, low, high }
}

fn badge_row(reader: u16, card: u16, low: u32, high: u32) -> BadgeRow<u16, Badge> {
    let badge = badge(card);
    BadgeRow {
        reader,
        badge,
        low,
        high,
    }
}

fn count_events(tally: &mut CountTable<Reader>) -> Result<(), Refusal> {
    for (reader, _) in EVENTS {
        tally.note(Reader::try_from(reader)?)?;
    }
    Ok(())
}

fn show_events(table: &mut BadgeTable<Reader, Badge>) -> Result<(), Refusal> {
    for (reader, card) in EVENTS {
        table.note(Reader::try_from(reader)?, badge(card))?;
    }
    Ok(())
}

// Two cells: reader 7 came 4 times of 6 and reader 9 twice, and no key that is not held could have
// come at all.
#[test]
fn readers_above_a_share_are_named(rt: HostRuntime) -> Result<(), Fail> {
    let mut area = [None; 2];
    let mut tally = CountTable::<Reader>::over(&mut area);
    tally.open(2)?;
    count_events(&mut tally)?;
    let rows = gather_readers(&tally, share(1, 4), 2, rt.alloc())??;
    assert!(rt; rows.as_slice() == [reader_row(7, 4, 4), reader_row(9, 2, 2)].as_slice());
    let rows = gather_readers(&tally, share(1, 3), 1, rt.alloc())??;
    assert!(rt; rows.as_slice() == [reader_row(7, 4, 4)].as_slice());
    let mut page = [reader_row(1, 0, 0); 3];
    assert!(rt; list_readers(&tally, share(1, 4), &mut page) == Ok(2));
    assert!(rt;
        page == [
            reader_row(7, 4, 4),
            reader_row(9, 2, 2),
            reader_row(1, 0, 0)
        ]
    );
    Ok(())
}

// One cell: reader 9 raised the level to 2, so that a key that is not held may have come twice.
#[test]
fn refused_reader_listings_tell_why(rt: HostRuntime) -> Result<(), Fail> {
    let mut area = [None; 1];
    let mut tally = CountTable::<Reader>::over(&mut area);
    tally.open(1)?;
    count_events(&mut tally)?;
    let mut page = [reader_row(1, 0, 0); 1];
    assert!(rt; list_readers(&tally, share(5, 4), &mut page) == Err(Refusal::ImpossibleShare));
    assert!(rt; list_readers(&tally, share(1, 4), &mut page) == Err(Refusal::TooFine));
    assert!(rt; list_readers(&tally, share(1, 3), &mut page[..0]) == Err(Refusal::PageShort));
    assert!(rt; page == [reader_row(1, 0, 0)]);
    let rows = gather_readers(&tally, share(1, 3), 0, rt.alloc())?;
    assert!(rt; rows.is_err_and(|e| e == Refusal::PageShort));
    Ok(())
}

// Two rows of two cells: nothing is missed.
#[test]
fn badges_above_a_share_are_named(rt: HostRuntime) -> Result<(), Fail> {
    let mut rows = [None; 2];
    let mut cells = [None; 4];
    let mut table = BadgeTable::<Reader, Badge>::over(&mut rows, &mut cells);
    table.open(2, 2)?;
    show_events(&mut table)?;
    let named = gather_badges(&table, share(1, 4), share(1, 2), 2, rt.alloc())??;
    assert!(rt; named.as_slice() == [badge_row(7, 500, 3, 3), badge_row(9, 500, 2, 2)].as_slice());
    let mut page = [badge_row(1, 1, 0, 0); 2];
    assert!(rt; list_badges(&table, share(1, 3), share(1, 5), &mut page) == Ok(2));
    assert!(rt; page == [badge_row(7, 500, 3, 3), badge_row(7, 501, 1, 1)]);
    Ok(())
}

// Two rows of one cell: the badge table of reader 7 is at level 1 of 4 arrivals seen, so that the
// badge that it holds may have come once more, and one that it does not hold may have come once.
#[test]
fn refused_badge_listings_tell_why(rt: HostRuntime) -> Result<(), Fail> {
    let mut rows = [None; 2];
    let mut cells = [None; 2];
    let mut table = BadgeTable::<Reader, Badge>::over(&mut rows, &mut cells);
    table.open(2, 1)?;
    show_events(&mut table)?;
    let mut page = [badge_row(1, 1, 0, 0); 2];
    assert!(rt;
        list_badges(&table, share(0, 4), share(1, 5), &mut page) == Err(Refusal::ImpossibleShare)
    );
    assert!(rt; list_badges(&table, share(1, 4), share(1, 5), &mut page) == Err(Refusal::TooFine));
    assert!(rt;
        list_badges(&table, share(1, 4), share(1, 4), &mut page[..1]) == Err(Refusal::PageShort)
    );
    assert!(rt; page == [badge_row(1, 1, 0, 0); 2]);
    assert!(rt; list_badges(&table, share(1, 4), share(1, 4), &mut page) == Ok(2));
    assert!(rt; page == [badge_row(7, 500, 2, 3), badge_row(9, 500, 2, 2)]);
    Ok(())
}
