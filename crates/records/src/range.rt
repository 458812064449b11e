// A range of the source, and when a span holds an offset.
ghost use Rattle.std.specs.Prelude.{◌≡◌, ◌&&◌, ◌<◌};
ghost use Rattle.records.specs.Kinds.{is_node};
ghost use Rattle.records.specs.Table.{count, kind_at, start_at, end_at};
ghost use Rattle.records.specs.Ranges.{absent, span, spans};

use crate::kinds::is_node;
use crate::record::{Rec, end_at, kind_at, start_at};
use lent::number::WORD_LIMIT;

// The start and the end of an absent range. Not an Option: document 01 writes it as these numbers in the entries that C reads, and the definitions with it.
pub const ABSENT: usize = WORD_LIMIT - 1;

// The bytes of the source from start up to end.
#[derive(Clone, Copy)]
pub struct Range {
    pub start: usize,
    pub end: usize,
}

// The absent range.
pub fn no_range() -> Range
    ensures { result ≡ absent }
{
    Range {
        start: ABSENT,
        end: ABSENT,
    }
}

// The range of a record.
impl From<Rec> for Range {
    ghost from_gives = { λ r x. x ≡ span r };

    fn from(r: Rec) -> Range {
        Range {
            start: r.start,
            end: r.end,
        }
    }
}

// A span holds the offset, both ends inclusive; an empty one holds none.
pub fn spans(start: usize, end: usize, offset: usize) -> bool
    ensures { result ≡ spans offset start end }
{
    (start <= offset) & (offset <= end)
}

// Record i is a node that holds the offset.
pub fn is_holder(s: &[u8], i: usize, offset: usize) -> bool
    requires { i < count s.now }
    ensures { result ≡ (is_node (kind_at s.now i) && spans offset (start_at s.now i) (end_at s.now i)) }
{
    let kind = kind_at(s, i);
    let start = start_at(s, i);
    let end = end_at(s, i);
    is_node(kind) & spans(start, end, offset)
}
