use crate::badge::Badge;
use crate::key::Key;
use crate::reader::Reader;
use crate::refusal::Refusal;
use crate::share::{Fraction, Share};
use std::test::Fail;

fn share_refused(p: u16, q: u16) -> Option<Refusal> {
    Share::try_from(Fraction { p, q }).err()
}

#[test]
fn refusals_are_numbered(rt: HostRuntime) {
    assert_eq!(rt; Refusal::StrangeMark.number(), 1);
    assert_eq!(rt; Refusal::CutShort.number(), 2);
    assert_eq!(rt; Refusal::NoReader.number(), 3);
    assert_eq!(rt; Refusal::MisreadBadge.number(), 4);
    assert_eq!(rt; Refusal::ImpossibleShare.number(), 5);
    assert_eq!(rt; Refusal::MisfitPlan.number(), 6);
    assert_eq!(rt; Refusal::RunFull.number(), 7);
    assert_eq!(rt; Refusal::TooFine.number(), 8);
    assert_eq!(rt; Refusal::PageShort.number(), 9);
}

#[test]
fn readers_begin_at_one(rt: HostRuntime) -> Result<(), Fail> {
    assert!(rt; Reader::try_from(0).is_err());
    assert!(rt; <Reader as Key>::of_record(0).is_none());
    let first = Reader::try_from(1)?;
    let last = Reader::try_from(65535)?;
    assert_eq!(rt; u16::from(last), 65535);
    assert!(rt; first == first);
    assert!(rt; first != last);
    let Some(again) = <Reader as Key>::of_record(last.record()) else {
        return Err(Fail::new("record lost"));
    };
    assert_eq!(rt; u16::from(again), 65535);
    Ok(())
}

#[test]
fn badges_agree_in_both_parts(rt: HostRuntime) -> Result<(), Fail> {
    let a = Badge {
        site: 12,
        card: 500,
    };
    assert!(rt;
        a == Badge {
            site: 12,
            card: 500
        }
    );
    assert!(rt;
        a != Badge {
            site: 13,
            card: 500
        }
    );
    assert!(rt;
        a != Badge {
            site: 12,
            card: 501
        }
    );
    let Some(again) = <Badge as Key>::of_record(a.record()) else {
        return Err(Fail::new("record lost"));
    };
    assert!(rt; again == a);
    Ok(())
}

#[test]
fn shares_have_limits(rt: HostRuntime) {
    assert_eq!(rt; share_refused(1, 1), None);
    assert_eq!(rt; share_refused(1, 1000), None);
    assert_eq!(rt; share_refused(1000, 1000), None);
    assert_eq!(rt; share_refused(0, 1), Some(Refusal::ImpossibleShare));
    assert_eq!(rt; share_refused(0, 0), Some(Refusal::ImpossibleShare));
    assert_eq!(rt; share_refused(2, 1), Some(Refusal::ImpossibleShare));
    assert_eq!(rt; share_refused(1, 1001), Some(Refusal::ImpossibleShare));
    assert_eq!(rt; share_refused(1, 65535), Some(Refusal::ImpossibleShare));
}

#[test]
fn equality_passes_no_share(rt: HostRuntime) -> Result<(), Fail> {
    let quarter = Share::try_from(Fraction { p: 1, q: 4 })?;
    assert!(rt; !quarter.passed_by(2, 8));
    assert!(rt; quarter.passed_by(2, 7));
    assert!(rt; !quarter.passed_by(0, 0));
    Ok(())
}

#[test]
fn refusals_are_told_and_ordered_by_number(rt: HostRuntime) -> Result<(), Fail> {
    let told = Refusal::TooFine.to_string(rt.alloc())?;
    assert_eq!(rt; told.as_str(), "8");
    assert_eq!(rt; Refusal::PageShort.min(Refusal::RunFull).number(), 7);
    Ok(())
}
