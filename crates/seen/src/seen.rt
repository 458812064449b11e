// The WITH names of a root that a query inside it sees (document 02, §4).
ghost use Rattle.std.specs.Prelude.{◌≡◌, ◌&&◌, not, ◌+◌, ◌≤◌, ◌<◌, eqb};
ghost use Rattle.records.specs.Kinds.{is_node, subquery_expression};
ghost use Rattle.records.specs.Table.{count};
ghost use Rattle.conditions.specs.Conditions.{most_records};
ghost use Rattle.lent.specs.Lists.{farthest, Written};
ghost use Rattle.names.specs.Bindings.{binding_row};
ghost use Rattle.seen.specs.Seen.{seen_of};
ghost use Rattle.seen.specs.inner.Room.{root_bytes};

use forest::stretch::{reach_below, rest_from};
use items::items::collect_items;
use records::kinds::{SUBQUERY_EXPRESSION, WITH_CLAUSE, is_node};
use records::record::{count_of, depth_at, kind_at};

// Is a child of kind k a node that collection visits?
fn visits(k: usize) -> bool
    ensures { result ≡ (is_node k && not (eqb k subquery_expression)) }
{
    is_node(k) & (k != SUBQUERY_EXPRESSION)
}

// Writes the WITH names of an enclosing root that record n sees. One loop: `reach` is how deep the next record may be, so that what stands in a
// subquery or a WITH clause is passed over.
pub fn collect_seen(
    table: &[u8],
    n: usize,
    root: usize,
    source: &[u8],
    out: &mut [u8],
    at: usize,
) -> usize
    requires { (root < count table.now) × (count table.now ≤ most_records) × (at + root_bytes < farthest) }
    ensures { Written binding_row (seen_of source.now table.now n root) out.old at out.new result
        × (result ≤ at + root_bytes) }
{
    if kind_at(table, root) == WITH_CLAUSE {
        return collect_items(table, n, root, source, out, at);
    }
    let s = rest_from(table, root);
    let m = count_of(s);
    let k = depth_at(s, 0) + 1;
    let mut reach = k;
    let mut next = at;
    for i in 1..m {
        let d = depth_at(s, i);
        if d < k {
            return next;
        }
        if reach < d {
            continue;
        }
        let kind = kind_at(s, i);
        if kind == WITH_CLAUSE {
            next = collect_items(table, n, root + i, source, out, next);
            reach = d;
            continue;
        }
        reach = reach_below(d, visits(kind));
    }
    next
}
