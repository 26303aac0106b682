ghost use Rattle.std.specs.Prelude.{◌≡◌, ℕ, ◌<◌, List, Ok, Err, MatchResult, length, slice_index_or};
ghost use Rattle.table.specs.Layout.{record_at, count};
ghost use Rattle.table.specs.Reading.{checked};
ghost use Rattle.table.specs.Tables.{Reads};

use crate::fault::TableFault;
use crate::records::shape::Shape;
use crate::records::{RECORD_BYTES, Record, Table};

// The record in its bytes.
impl From<[u8; RECORD_BYTES]> for Record {
    ghost from_gives = { λ bytes r. r ≡ record_at bytes 0 };

    fn from(bytes: [u8; RECORD_BYTES]) -> Record {
        Record {
            state: u16::from_le_bytes([bytes[0], bytes[1]]),
            setting: u16::from_le_bytes([bytes[2], bytes[3]]),
            next: u16::from_le_bytes([bytes[4], bytes[5]]),
            mark: u16::from_le_bytes([bytes[6], bytes[7]]),
        }
    }
}

// The whole records in these bytes.
#[tactic(auto, using(crate::proofs::Chunks::record_in_chunk))]
pub(crate) fn chunks(bytes: &[u8]) -> &[[u8; RECORD_BYTES]]
    ensures number { length result.now ≡ count bytes.now }
    ensures each { (i : ℕ) (none : List ℕ) → i < count bytes.now
        → record_at (slice_index_or result.now i none) 0 ≡ record_at bytes.now i }
{
    let (records, _) = bytes.as_chunks::<RECORD_BYTES>();
    records
}

// The shape of the file, if it obeys the rules.
#[tactic(auto, using(crate::proofs::Firsts::none_if_allowed))]
fn check_file(bytes: &[u8]) -> Result<Shape, TableFault>
    ensures { MatchResult result
        (λ s. checked bytes.now ≡ Ok (record { states = s.states; settings = s.settings }))
        (λ e. checked bytes.now ≡ Err e) }
{
    let length = bytes.len();
    let records = chunks(bytes);
    let (Some(last), 0) = (records.last(), length % RECORD_BYTES) else {
        return Err(TableFault::BadLength { length });
    };
    let number = records.len();
    let bad_count = TableFault::BadCount { record: number - 1 };
    let shape = Shape::ending_with(Record::from(*last), number).ok_or(bad_count)?;
    shape.check_records(bytes)?;
    Ok(shape)
}

impl Table {
    // The table in these bytes, or the refusal of the file. The table owns the bytes; nothing is copied.
    pub fn read(bytes: Vec<u8>) -> Result<Table, TableFault>
        ensures { Reads bytes.items result }
    {
        let shape = check_file(bytes.as_slice())?;
        Ok(Table { bytes, shape })
    }
}
