//! The reader: it borrows a file and hands on its records, one after the other.

ghost use Rattle.std.specs.Prelude.{◌≡◌};
ghost use Rattle.study_file.specs.Records.{content_at, record_at, next_record, place_after, found, found_next};

use crate::codes::Kind;
use crate::record::Record;
use bench::{Cause, Fault, Layer};

// The file stands beside the place, and not a slice of what is left of it: each record and each fault names its place, and the length of
// the whole file is looked at first. The reader is no `Iterator`: at a fault it stays where it is, and a loop over it would not end.

/// Reads a file record by record. The next one stands at its place.
#[derive(Drop)]
pub struct Reader<'a> {
    file: &'a [u8],
    place: u16,
}

/// A file has at most so many bytes.
pub const MOST_BYTES: u16 = 32768;

/// The record at a place, where `content` is what follows its length: its kind and its body.
fn content_at(place: u16, content: &[u8]) -> Result<Record<'_>, Fault>
    ensures { found result ≡ content_at place content.now }
{
    let [low, high, body @ ..] = content else {
        return Err(Layer::Reader.fault(Cause::WrongLength, place));
    };
    let number = u16::from_le_bytes([*low, *high]);
    let kind = Kind::try_from(number).map_err(|cause| Layer::Reader.fault(cause, place))?;
    if body.len() == kind.fields() {
        Ok(Record { kind, body, place })
    } else {
        Err(Layer::Reader.fault(Cause::WrongLength, place))
    }
}

/// The record at a place, where `rest` is the file from there on.
fn record_at(place: u16, rest: &[u8]) -> Result<Record<'_>, Fault>
    ensures { found result ≡ record_at place rest.now }
{
    let [low, high, rest @ ..] = rest else {
        return Err(Layer::Reader.fault(Cause::CutShort, place));
    };
    let length = usize::from(u16::from_le_bytes([*low, *high]));
    if rest.len() < length {
        return Err(Layer::Reader.fault(Cause::CutShort, place));
    }
    content_at(place, &rest[0..length])
}

impl<'a> Reader<'a> {
    /// A reader at the start of a file.
    pub fn new(file: &'a [u8]) -> Reader<'a>
        ensures place { result.place ≡ 0 }
        ensures file { result.file.now ≡ file.now }
    {
        Reader { file, place: 0 }
    }

    /// The next record, or none at the end of the file.
    pub fn next_record(&mut self) -> Result<Option<Record<'a>>, Fault>
        ensures next { found_next result ≡ next_record self.old.place self.old.file.now }
        ensures place { self.new.place ≡ place_after self.old.place (found_next result) }
        ensures file { self.new.file.now ≡ self.old.file.now }
    {
        let place = self.place;
        if self.file.len() > usize::from(MOST_BYTES) {
            return Err(Layer::Reader.fault(Cause::TooLong, MOST_BYTES));
        }
        let start = usize::from(place);
        if start >= self.file.len() {
            return Ok(None);
        }
        let record = record_at(place, &self.file[start..])?;
        self.place = place + 4 + record.body.len() as u16;
        Ok(Some(record))
    }
}
