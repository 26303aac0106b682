ghost use Rattle.std.specs.Prelude.{◌≡◌, ℕ, ◌<◌, ◌&&◌, cond, List, Some, None, length, nat_lt, slice_index_or};
ghost use Rattle.table.specs.Layout.{record_at};
ghost use Rattle.table.specs.Tables.{file, record_count, record_of, record_numbered};

use crate::records::reading::chunks;
use crate::records::{RECORD_BYTES, Record, Table};

impl Table {
    // N, the number of states: known states are 0 to N - 1.
    pub fn states(&self) -> usize
        ensures { result ≡ (file self.now).states }
    {
        self.shape.states
    }

    // How many records the table has: one for each state and setting. It is asked of the chunks, as `record`
    // asks it, so that a loop over all records tests no place twice.
    pub fn record_count(&self) -> usize
        ensures { result ≡ record_count (file self.now) }
    {
        self.chunks().len()
    }

    // The records, each in its bytes.
    pub(crate) fn chunks(&self) -> &[[u8; RECORD_BYTES]]
        ensures number { length result.now ≡ record_count (file self.now) }
        ensures each { (i : ℕ) (none : List ℕ) → i < record_count (file self.now)
            → record_at (slice_index_or result.now i none) 0 ≡ record_at (file self.now).bytes i }
    {
        chunks(self.bytes.as_slice())
    }

    // Record i, from 0, or none.
    pub fn record(&self, i: usize) -> Option<Record>
        ensures { result ≡ record_numbered (file self.now) i }
    {
        self.chunks().get(i).map(|chunk| Record::from(*chunk))
    }

    // The record of a known state and a setting below K, or none where one is not.
    #[tactic(auto, using(crate::proofs::Places::in_table))]
    pub(crate) fn record_of(&self, state: u16, setting: u8) -> Option<Record>
        ensures { let f = file self.now in result
            ≡ cond (nat_lt state f.states && nat_lt setting f.settings) (Some (record_of f state setting)) None }
    {
        if setting >= self.shape.settings {
            return None;
        }
        self.record(usize::from(state) * usize::from(self.shape.settings) + usize::from(setting))
    }
}
