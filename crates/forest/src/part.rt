// A part of the table: the records of a stretch, and the number of the first.
ghost use Rattle.std.specs.Prelude.{◌≡◌, ◌+◌, ◌-◌, ◌*◌, ◌≤◌, ◌<◌, length};
ghost use Rattle.lent.specs.Numbers.{word_limit};
ghost use Rattle.records.specs.Table.{record_bytes, count, kind_at, record_at, part};
ghost use Rattle.conditions.specs.Conditions.{most_records};
ghost use Rattle.forest.specs.Forest.{stretch_end, Child};
ghost use Rattle.forest.specs.inner.Nodes.{NodeChild};

use crate::nodes::node_from;
use crate::stretch::{child_from, stretch_of};
use records::record::{Rec, count_of, kind_at, record_at};

// A stretch has its node, and however deep it lies, the numbers of its records stay below 4,096.
// It is lent to a walk: by value it would stand once more in the frame of each call.
#[derive(Clone, Copy)]
pub struct Part<'a> {
    pub bytes: &'a [u8],
    pub base: usize,
    pub ghost some: { 0 < count bytes.now },
    pub ghost few: { base + count bytes.now ≤ most_records },
}

impl<'a> Part<'a> {
    // How many records it has.
    pub fn count(&self) -> usize
        ensures { result ≡ count self.now.bytes.now }
    {
        count_of(self.bytes)
    }

    // The kind of record i, counted from the first.
    pub fn kind_at(&self, i: usize) -> usize
        requires { i < count self.now.bytes.now }
        ensures { (result ≡ kind_at self.now.bytes.now i) × (result < word_limit) }
    {
        kind_at(self.bytes, i)
    }

    // Record i, with its number in the table.
    pub fn record_at(&self, i: usize) -> Rec
        requires { i < count self.now.bytes.now }
        ensures { result ≡ record_at self.now.bytes.now self.now.base i }
    {
        record_at(self.bytes, self.base, i)
    }

    // The first child of the part's first record at or after record j, or the count of records.
    pub fn child_from(&self, j: usize) -> usize
        requires { (1 ≤ j) × (j ≤ count self.now.bytes.now) }
        ensures { Child self.now.bytes.now j result }
    {
        child_from(self.bytes, j)
    }

    // The first child node of the part's first record at or after record j, or the count of records.
    pub fn node_from(&self, j: usize) -> usize
        requires { (1 ≤ j) × (j ≤ count self.now.bytes.now) }
        ensures { NodeChild self.now.bytes.now j result }
    {
        node_from(self.bytes, j)
    }

    // The stretch of record i.
    pub fn stretch_of(&self, i: usize) -> Part<'a>
        requires { i < count self.now.bytes.now }
        ensures { (result.bytes.now ≡ part self.now.bytes.now i (stretch_end self.now.bytes.now i))
            × (result.base ≡ self.now.base + i)
            × (length result.bytes.now ≡ record_bytes * (stretch_end self.now.bytes.now i - i))
            × (i < stretch_end self.now.bytes.now i) × (stretch_end self.now.bytes.now i ≤ count self.now.bytes.now) }
    {
        Part {
            bytes: stretch_of(self.bytes, i),
            base: self.base + i,
        }
    }
}
