// The records above a record, nearest first: its parent, then that one's, up to record 0 (document 02, §8).
ghost use Rattle.std.specs.Prelude.{[], ◌<◌, ◌≤◌, length};
ghost use Rattle.records.specs.Table.{count};
ghost use Rattle.conditions.specs.Conditions.{most_records};
ghost use Rattle.table.specs.Rules.{number_rules};
ghost use Rattle.lent.specs.Lists.{Written, Answers};
ghost use Rattle.forest.specs.Above.{above};
ghost use Rattle.forest.specs.inner.Climbing.{Climbs};
ghost use Rattle.above.specs.Above.{above_row};
ghost use Rattle.above.specs.inner.Deep.{Deep};

use lent::list::put_entry;
use lent::number::NUMBER_BYTES;
use lent::refusal::{Condition, Refusal, refused};
use records::record::{count_of, depth_at, parent_at};
use table::check::check;

// Writes the records above record n from out's first byte on, and returns where the next would go.
fn collect_above(table: &[u8], n: usize, out: &mut [u8]) -> usize
    requires { ((n < count table.now) × (count table.now ≤ most_records)) × Climbs table.now }
    ensures { Written above_row (above table.now n) out.old 0 out.new result }
{
    let mut next = 0;
    let mut i = n;
    // While, not for: a climb goes from a node to the one above it, and ends at the first record.
    while 0 < i {
        i = parent_at(table, i);
        next = put_entry(out, next, &[i]);
    }
    next
}

// Lists the records above record n of a table that is admitted: as many as it is deep.
fn list_above(table: &[u8], n: usize, out: &mut [u8]) -> Result<u32, Refusal>
    requires { ((n < count table.now) × (count table.now ≤ most_records)) × Climbs table.now × Deep table.now n }
    ensures { Answers [] above_row (above table.now n) out.old result out.new }
{
    let entries = depth_at(table, n) as u32;
    if out.len() / NUMBER_BYTES < entries as usize {
        return refused(Condition::NoRoom, entries);
    }
    collect_above(table, n, out);
    Ok(entries)
}

// The records above record n, node or token, nearest first.
pub fn records_above(table: &[u8], source: &[u8], n: usize, out: &mut [u8]) -> Result<u32, Refusal>
    ensures { Answers (number_rules table.now (length source.now) n) above_row (above table.now n)
        out.old result out.new }
{
    check(table, source)?;
    if count_of(table) <= n {
        return refused(Condition::NoRoot, 0);
    }
    list_above(table, n, out)
}
