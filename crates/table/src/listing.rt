ghost use Rattle.std.specs.Prelude.{◌≡◌, ◌+◌, take, IfOk, string_bytes};
ghost use Rattle.table.specs.Listing.{most_bytes, Tells};

use crate::records::Table;
use std::alloc::{AllocError, Global};

// The most bytes of a file that are looked at.
pub const MOST_BYTES: usize = 65_536;

// The bytes that are looked at: one more than the most, so that a longer file is seen to be too long.
fn looked_at(mut bytes: Vec<u8>) -> Vec<u8>
    ensures { result.items ≡ take (most_bytes + 1) bytes.items }
{
    bytes.truncate(MOST_BYTES + 1);
    bytes
}

// What a table file holds, or its refusal, as text. More than 65,536 bytes count as a length of 65,537.
pub fn listing(heap: Global, file: Vec<u8>) -> Result<String, AllocError>
    ensures { IfOk result (λ s. Tells file.items (string_bytes s)) }
{
    match Table::read(looked_at(file)) {
        Ok(table) => table.to_string(heap),
        Err(fault) => format!(in heap; "{fault}\n"),
    }
}
