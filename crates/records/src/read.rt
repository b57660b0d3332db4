ghost use Rattle.std.specs.Prelude.{◌≡◌, ◌+◌, ◌≤◌, length, IfOk};
ghost use Rattle.records.specs.Marks.{length_of};
ghost use Rattle.records.specs.Records.{content_of, event_in, fraction_in, mark_at_front, record_at_front, report_in};

use crate::field::bytes_at;
use crate::frame::Frame;
use crate::mark::Mark;
use crate::record::Record;
use keys::badge::Badge;
use keys::reader::Reader;
use keys::refusal::Refusal;
use keys::share::Fraction;

// The mark of the record at the front, if the whole record is there. Refused, in this order, with
// cut short for fewer than two bytes, strange mark, and cut short for a record that is not whole.
pub fn front_mark(bytes: &[u8]) -> Result<Mark, Refusal>
    ensures value { result ≡ mark_at_front bytes.now }
    ensures within { IfOk result (λ m. length_of m ≤ length bytes.now) }
{
    if bytes.len() < 2 {
        return Err(Refusal::CutShort);
    }
    let mark = Mark::try_from(u16::from_be_bytes(bytes_at(bytes, 0)))?;
    if bytes.len() < mark.length() {
        return Err(Refusal::CutShort);
    }
    Ok(mark)
}

// The event in eight bytes.
fn event(bytes: &[u8]) -> Result<Record, Refusal>
    requires { 8 ≤ length bytes.now }
    ensures { result ≡ event_in bytes.now }
{
    let reader = Reader::try_from(u16::from_be_bytes(bytes_at(bytes, 2)))?;
    let badge = Badge::try_from(Frame(u32::from_be_bytes(bytes_at(bytes, 4))))?;
    Ok(Record::Event(reader, badge))
}

// The fraction in four bytes from a place on.
fn fraction(bytes: &[u8], at: usize) -> Fraction
    requires { at + 4 ≤ length bytes.now }
    ensures { result ≡ fraction_in at bytes.now }
{
    Fraction {
        p: u16::from_be_bytes(bytes_at(bytes, at)),
        q: u16::from_be_bytes(bytes_at(bytes, at + 2)),
    }
}

// The report in ten bytes.
fn report(bytes: &[u8]) -> Record
    requires { 10 ≤ length bytes.now }
    ensures { result ≡ report_in bytes.now }
{
    Record::Report(fraction(bytes, 2), fraction(bytes, 6))
}

// What a record with this mark holds.
fn content(mark: Mark, bytes: &[u8]) -> Result<Record, Refusal>
    requires { length_of mark ≤ length bytes.now }
    ensures { result ≡ content_of mark bytes.now }
{
    match mark {
        Mark::Event => event(bytes),
        Mark::Report => Ok(report(bytes)),
        Mark::Clear => Ok(Record::Clear),
    }
}

// The record at the front of the bytes, with its length. Refused as its mark is, and then an event
// with no reader, and then with a misread badge.
pub fn read_record(bytes: &[u8]) -> Result<(Record, usize), Refusal>
    ensures { result ≡ record_at_front bytes.now }
{
    let mark = front_mark(bytes)?;
    let record = content(mark, bytes)?;
    Ok((record, mark.length()))
}
