// A record is twenty bytes, five 32-bit little-endian numbers: kind, depth, start, end, parent.
ghost use Rattle.std.specs.Prelude.{◌≡◌, ◌+◌, ◌<◌};
ghost use Rattle.lent.specs.Numbers.{word_limit};
ghost use Rattle.records.specs.Table.{count, kind_at, depth_at, start_at, end_at, parent_at, record_at};

use lent::number::word_at;

// How many bytes a record has.
pub const RECORD_BYTES: usize = 20;

// A record with its number. The number goes with it however deep the part is that it was read from.
#[derive(Clone, Copy)]
pub struct Rec {
    pub index: usize,
    pub kind: usize,
    pub depth: usize,
    pub start: usize,
    pub end: usize,
}

// How many records t has.
pub fn count_of(t: &[u8]) -> usize
    ensures { result ≡ count t.now }
{
    t.len() / RECORD_BYTES
}

// The kind of record i.
pub fn kind_at(t: &[u8], i: usize) -> usize
    requires { i < count t.now }
    ensures { (result ≡ kind_at t.now i) × (result < word_limit) }
{
    word_at(t, RECORD_BYTES * i)
}

// The depth of record i.
pub fn depth_at(t: &[u8], i: usize) -> usize
    requires { i < count t.now }
    ensures { (result ≡ depth_at t.now i) × (result < word_limit) }
{
    word_at(t, RECORD_BYTES * i + 4)
}

// The start of record i.
pub fn start_at(t: &[u8], i: usize) -> usize
    requires { i < count t.now }
    ensures { (result ≡ start_at t.now i) × (result < word_limit) }
{
    word_at(t, RECORD_BYTES * i + 8)
}

// The end of record i.
pub fn end_at(t: &[u8], i: usize) -> usize
    requires { i < count t.now }
    ensures { (result ≡ end_at t.now i) × (result < word_limit) }
{
    word_at(t, RECORD_BYTES * i + 12)
}

// The parent that record i carries.
pub fn parent_at(t: &[u8], i: usize) -> usize
    requires { i < count t.now }
    ensures { (result ≡ parent_at t.now i) × (result < word_limit) }
{
    word_at(t, RECORD_BYTES * i + 16)
}

// Record i of t, where t's first record has the number base.
pub fn record_at(t: &[u8], base: usize, i: usize) -> Rec
    requires { (i < count t.now) × (base + i < word_limit) }
    ensures { result ≡ record_at t.now base i }
{
    Rec {
        index: base + i,
        kind: kind_at(t, i),
        depth: depth_at(t, i),
        start: start_at(t, i),
        end: end_at(t, i),
    }
}
