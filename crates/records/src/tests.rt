use crate::frame::Frame;
use crate::read::read_record;
use crate::record::Record;
use keys::badge::Badge;
use keys::reader::Reader;
use keys::refusal::Refusal;
use keys::share::Fraction;
use std::test::Fail;

// An event of reader 7 with site 12 and card 500, a report at 1/4 and 1/2, and a clear.
const EVENT: [u8; 8] = [0x5a, 0xe1, 0x00, 0x07, 0x00, 0x18, 0x03, 0xe9];

const REPORT: [u8; 10] = [0x5a, 0xe2, 0x00, 0x01, 0x00, 0x04, 0x00, 0x01, 0x00, 0x02];

const CLEAR: [u8; 2] = [0x5a, 0xe3];

// The refusal, if it is not read.
fn refused(bytes: &[u8]) -> Option<Refusal> {
    read_record(bytes).err()
}

fn frame_refused(frame: u32) -> Option<Refusal> {
    Badge::try_from(Frame(frame)).err()
}

#[test]
fn frames_of_two_badges(rt: HostRuntime) -> Result<(), Fail> {
    let first = Badge {
        site: 12,
        card: 500,
    };
    let second = Badge { site: 1, card: 0 };
    assert_eq!(rt; Frame::from(first), Frame(0x001803e9));
    assert_eq!(rt; Frame::from(second), Frame(0x02020001));
    assert_eq!(rt; Badge::try_from(Frame(0x001803e9))?, first);
    assert_eq!(rt; Badge::try_from(Frame(0x02020001))?, second);
    Ok(())
}

#[test]
fn misread_frames_are_refused(rt: HostRuntime) {
    assert_eq!(rt; frame_refused(0x001803e8), Some(Refusal::MisreadBadge));
    assert_eq!(rt; frame_refused(0x021803e9), Some(Refusal::MisreadBadge));
    assert_eq!(rt; frame_refused(0x041803e9), Some(Refusal::MisreadBadge));
    assert_eq!(rt; frame_refused(0x801803e9), Some(Refusal::MisreadBadge));
}

#[test]
fn an_event_is_read(rt: HostRuntime) -> Result<(), Fail> {
    let badge = Badge {
        site: 12,
        card: 500,
    };
    let event = Record::Event(Reader::try_from(7)?, badge);
    assert_eq!(rt; read_record(&EVENT)?, (event, 8));
    Ok(())
}

#[test]
fn a_report_is_read(rt: HostRuntime) -> Result<(), Fail> {
    let report = Record::Report(Fraction { p: 1, q: 4 }, Fraction { p: 1, q: 2 });
    assert_eq!(rt; read_record(&REPORT)?, (report, 10));
    Ok(())
}

#[test]
fn a_clear_is_read(rt: HostRuntime) -> Result<(), Fail> {
    assert_eq!(rt; read_record(&CLEAR)?, (Record::Clear, 2));
    Ok(())
}

#[test]
fn cut_records_are_refused(rt: HostRuntime) {
    for record in [&EVENT[..], &REPORT[..], &CLEAR[..]] {
        for n in 0..record.len() {
            assert_eq!(rt; refused(&record[0..n]), Some(Refusal::CutShort));
        }
    }
}

#[test]
fn refusals_come_in_order(rt: HostRuntime) {
    assert_eq!(rt; refused(&[0x5b]), Some(Refusal::CutShort));
    assert_eq!(rt; refused(&[0x5b, 0xe1]), Some(Refusal::StrangeMark));
    assert_eq!(rt; refused(&[0x5a, 0xe0]), Some(Refusal::StrangeMark));
    assert_eq!(rt;
        refused(&[0x5a, 0xe4, 0, 0, 0, 0, 0, 0]),
        Some(Refusal::StrangeMark)
    );
    assert_eq!(rt;
        refused(&[0x5a, 0xe1, 0, 0, 0, 0, 0]),
        Some(Refusal::CutShort)
    );
    assert_eq!(rt;
        refused(&[0x5a, 0xe1, 0, 0, 0, 0, 0, 0]),
        Some(Refusal::NoReader)
    );
    assert_eq!(rt;
        refused(&[0x5a, 0xe1, 0, 1, 0, 0, 0, 0]),
        Some(Refusal::MisreadBadge)
    );
    assert_eq!(rt; refused(&[0x5a, 0xe1, 0, 1, 0, 0, 0, 1]), None);
    assert_eq!(rt; refused(&[0x5a, 0xe2, 0, 0, 0, 0, 0, 0, 0, 0]), None);
}
