// Refusals 1, 2 and 10, of the lengths, and 8, of a named root.
ghost use Rattle.std.specs.Prelude.{◌≡◌};
ghost use Rattle.conditions.specs.Conditions.{bad_length, too_long, bad_offsets, no_root};

use records::kinds::is_node;
use records::record::{RECORD_BYTES, kind_at};

// The most records, bytes of a source and bytes of a message.
pub const MOST_RECORDS: usize = 4096;

const MOST_SOURCE: usize = 65536;

const MOST_MESSAGE: usize = 4096;

// The most offsets in a list of them, and the bytes of one.
pub const MOST_OFFSETS: usize = 64;

pub const OFFSET_BYTES: usize = 4;

// Refusal 1: the table has no record, a part of one, or too many.
pub fn bad_length(t: &[u8]) -> bool
    ensures { result ≡ bad_length t.now }
{
    let n = t.len();
    (n == 0) | (n % RECORD_BYTES != 0) | (MOST_RECORDS < n / RECORD_BYTES)
}

// Refusal 2: the source or the message is too long.
pub fn too_long(source: usize, message: usize) -> bool
    ensures { result ≡ too_long source message }
{
    (MOST_SOURCE < source) | (MOST_MESSAGE < message)
}

// Refusal 10: so many bytes are over 64 offsets, or not a whole count of them.
pub fn bad_offsets(bytes: usize) -> bool
    ensures { result ≡ bad_offsets bytes }
{
    (MOST_OFFSETS < bytes / OFFSET_BYTES) | (bytes % OFFSET_BYTES != 0)
}

// Refusal 8: the record is no node of the table.
pub fn no_root(table: &[u8], root: usize) -> bool
    ensures { result ≡ no_root table.now root }
{
    if root < table.len() / RECORD_BYTES {
        !is_node(kind_at(table, root))
    } else {
        true
    }
}
