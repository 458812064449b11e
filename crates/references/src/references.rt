// The entry of a reference.
ghost use Rattle.std.specs.Prelude.{[], ◌∷◌, ◌+◌, ◌≤◌, ◌<◌};
ghost use Rattle.lent.specs.Lists.{farthest, Written};
ghost use Rattle.references.specs.References.{reference_bytes, reference_row};

use crate::pending::TableRef;
use lent::list::put_entry;
use lent::number::NUMBER_BYTES;

// How many bytes the entry of a reference takes: thirteen numbers, its record and two ranges of each of its three names.
pub const REFERENCE_BYTES: usize = 13 * NUMBER_BYTES;

// Writes a reference's entry from byte `at` on, and returns where the next entry goes.
pub fn put_reference(t: TableRef, out: &mut [u8], at: usize) -> usize
    requires { at < farthest }
    ensures { Written reference_row (t ∷ []) out.old at out.new result × (result ≤ at + reference_bytes) }
{
    let row = [
        t.record,
        t.database.outer.start,
        t.database.outer.end,
        t.database.inner.start,
        t.database.inner.end,
        t.table.outer.start,
        t.table.outer.end,
        t.table.inner.start,
        t.table.inner.end,
        t.alias.outer.start,
        t.alias.outer.end,
        t.alias.inner.start,
        t.alias.inner.end,
    ];
    put_entry(out, at, &row)
}
