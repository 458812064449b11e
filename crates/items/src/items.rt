// The items of a WITH clause that an inner query sees.
ghost use Rattle.std.specs.Prelude.{◌≡◌, ◌+◌, ◌≤◌, ◌<◌};
ghost use Rattle.records.specs.Table.{count};
ghost use Rattle.forest.specs.Forest.{inside};
ghost use Rattle.forest.specs.Above.{stands_below};
ghost use Rattle.conditions.specs.Conditions.{most_records};
ghost use Rattle.lent.specs.Lists.{farthest, Written};
ghost use Rattle.names.specs.Bindings.{binding_row};
ghost use Rattle.items.specs.Items.{items, items_before, bound_by};
ghost use Rattle.items.specs.inner.Room.{clause_bytes};

use forest::part::Part;
use forest::stretch::{reach_below, rest_from, stretch_end};
use names::bindings::put_cte;
use records::kinds::{COLUMN_LIST, WITH_EXPRESSION_ITEM};
use records::record::{count_of, depth_at, kind_at};

// Record n stands below record x: in its stretch, behind its head.
fn is_below(table: &[u8], x: usize, n: usize) -> bool
    requires { x < count table.now }
    ensures { result ≡ stands_below table.now x n }
{
    (x < n) & (n < stretch_end(table, x))
}

// Writes the items of a WITH clause that record n sees, also through ColumnList: those before the one that holds it.
pub fn collect_items(
    table: &[u8],
    n: usize,
    clause: usize,
    source: &[u8],
    out: &mut [u8],
    at: usize,
) -> usize
    requires { (clause < count table.now) × (count table.now ≤ most_records) × (at + clause_bytes < farthest) }
    ensures { Written binding_row (bound_by source.now (items_before table.now n (items (inside table.now clause))))
        out.old at out.new result × (result ≤ at + clause_bytes) }
{
    let s = rest_from(table, clause);
    let m = count_of(s);
    let k = depth_at(s, 0) + 1;
    let mut reach = k;
    let mut next = at;
    for i in 1..m {
        let d = depth_at(s, i);
        if d < k {
            return next;
        }
        if reach < d {
            continue;
        }
        let kind = kind_at(s, i);
        if kind == WITH_EXPRESSION_ITEM {
            if is_below(table, clause + i, n) {
                return next;
            }
            let item = Part {
                bytes: rest_from(table, clause + i),
                base: clause + i,
            };
            next = put_cte(&item, source, out, next);
            reach = d;
            continue;
        }
        reach = reach_below(d, kind == COLUMN_LIST);
    }
    next
}
