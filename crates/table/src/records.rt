// A model read off the records of a table file, which it owns.
pub mod contents;
pub mod reading;
mod shape;
pub mod stepping;
pub mod telling;

ghost use Rattle.std.specs.Prelude.{◌≡◌, ℕ, ◌*◌, ◌<◌, ◌≤◌, vec_len};
ghost use Rattle.model.specs.Meaning.{highest_mark};
ghost use Rattle.table.specs.Layout.{record_bytes, record_at};

use crate::records::shape::Shape;

// The bytes of a record.
pub const RECORD_BYTES: usize = 8;

// A record: from this state, under this setting, the model goes to the next state and earns the mark.
#[derive(Clone, Copy, PartialEq, Eq, Debug)]
pub struct Record {
    pub state: u16,
    pub setting: u16,
    pub next: u16,
    pub mark: u16,
}

// A table of N states and K settings: one record for each state and setting.
#[derive(Drop)]
pub struct Table {
    bytes: Vec<u8>,
    // N and K
    shape: Shape,
    ghost complete: { vec_len bytes ≡ record_bytes * (shape.states * shape.settings) },
    ghost next_known: { (i : ℕ) → i < shape.states * shape.settings → (record_at bytes.items i).next < shape.states },
    ghost small_marks: { (i : ℕ) → i < shape.states * shape.settings → (record_at bytes.items i).mark ≤ highest_mark },
}
