// Where each cursor's search among record 0's children may begin: one walk over the children for all cursors.
ghost use Rattle.std.specs.Prelude.{◌≡◌, not, ◌&&◌, ◌+◌, ◌<◌, eqb, length};
ghost use Rattle.records.specs.Table.{count, kind_at, start_at, end_at};
ghost use Rattle.records.specs.Kinds.{is_node};
ghost use Rattle.records.specs.Ranges.{spans};
ghost use Rattle.forest.specs.Forest.{Child};
ghost use Rattle.starts.specs.inner.Ready.{Ready, Begun};

use conditions::whole::{MOST_OFFSETS, OFFSET_BYTES};
use forest::stretch::child_from;
use lent::number::word_at;
use records::range::is_holder;
use records::record::count_of;

// A cursor whose search is at child i goes on to the next: the child does not hold its offset.
fn goes_on(table: &[u8], i: usize, at: usize, offset: usize) -> bool
    requires { i < count table.now }
    ensures { result ≡ (eqb at i && not (is_node (kind_at table.now i)
        && spans offset (start_at table.now i) (end_at table.now i))) }
{
    (at == i) & !is_holder(table, i, offset)
}

// Each cursor that is at child i and not held by it goes on to the next child. Is there one?
fn pass_child(
    table: &[u8],
    offsets: &[u8],
    i: usize,
    next: usize,
    starts: &mut [usize; MOST_OFFSETS],
) -> bool
    requires { ((i < count table.now) × Ready table.now (length offsets.now)) × Child table.now (i + 1) next
        × Begun table.now offsets.now starts.old }
    ensures { Begun table.now offsets.now starts.new }
{
    let n = offsets.len() / OFFSET_BYTES;
    let mut moved = false;
    // by an index: of a slice that is written through a zip of its iter_mut a proof knows only the length
    for c in 0..n {
        let at = starts[c];
        let on = goes_on(table, i, at, word_at(offsets, OFFSET_BYTES * c));
        // chosen without a branch: by one, 64 cursors on a short page take half as many instructions more
        starts[c] = if on { next } else { at };
        moved |= on;
    }
    moved
}

// From record 0's first child on, as far as a cursor is still searching. One cursor alone searches by itself.
pub fn begin_all(table: &[u8], offsets: &[u8], first: usize, starts: &mut [usize; MOST_OFFSETS])
    requires { (Ready table.now (length offsets.now)) × Child table.now 1 first × Begun table.now offsets.now starts.old }
    ensures { Begun table.now offsets.now starts.new }
{
    if offsets.len() <= OFFSET_BYTES {
        return;
    }
    let m = count_of(table);
    let mut i = first;
    // While, not for: the next child begins where the records of this one end.
    while i < m {
        let next = child_from(table, i + 1);
        if !pass_child(table, offsets, i, next, starts) {
            return;
        }
        i = next;
    }
}
