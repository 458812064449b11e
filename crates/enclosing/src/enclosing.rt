// The roots around a root, and the WITH names that it sees of each (document 02, §4).
ghost use Rattle.std.specs.Prelude.{◌≡◌, ◌+◌, ◌≤◌, ◌<◌};
ghost use Rattle.records.specs.Table.{count, depth_at};
ghost use Rattle.conditions.specs.Conditions.{most_records, most_depth};
ghost use Rattle.lent.specs.Lists.{farthest, Written};
ghost use Rattle.names.specs.Bindings.{binding_row};
ghost use Rattle.forest.specs.Above.{above};
ghost use Rattle.forest.specs.inner.Climbing.{Climbs};
ghost use Rattle.enclosing.specs.Enclosing.{roots_among};
ghost use Rattle.enclosing.specs.Offered.{seen_of_all};
ghost use Rattle.enclosing.specs.inner.Climb.{outer_root, outer_number, around_bytes};

use records::kinds::SUBQUERY_EXPRESSION;
use records::record::{kind_at, parent_at};
use seen::seen::collect_seen;
use statement::statement::is_statement;

// What is known of the last enclosing root: nothing while nothing stands above the outermost subquery, then record 0 while there is no statement, else the
// nearest statement.
#[derive(Clone, Copy, Drop)]
enum Outer {
    Nothing,
    First,
    Statement(usize),
}

impl Outer {
    // What is known after one more node above the subqueries, record i.
    fn after(self, kind: usize, i: usize) -> Outer
        ensures { result ≡ outer_root self kind i }
    {
        match self {
            Outer::Statement(_) => self,
            _ if is_statement(kind) => Outer::Statement(i),
            _ => Outer::First,
        }
    }

    // The last enclosing root, if there is one.
    fn root(self) -> Option<usize>
        ensures { result ≡ outer_number self }
    {
        match self {
            Outer::Nothing => None,
            Outer::First => Some(0),
            Outer::Statement(i) => Some(i),
        }
    }
}

// Writes the WITH names of the roots around record n, nearest first: a climb from parent to parent.
pub fn collect_around(table: &[u8], n: usize, source: &[u8], out: &mut [u8], at: usize) -> usize
    requires { ((n < count table.now) × (count table.now ≤ most_records) × (depth_at table.now n ≤ most_depth) × (at + around_bytes < farthest))
        × Climbs table.now }
    ensures { Written binding_row
        (seen_of_all source.now table.now n (roots_among table.now (above table.now n)))
        out.old at out.new result × (result ≤ at + around_bytes) }
{
    let mut outer = Outer::Nothing;
    let mut next = at;
    let mut i = n;
    // While, not for: a climb goes from a node to the one above it, and ends at the first record.
    while 0 < i {
        i = parent_at(table, i);
        let kind = kind_at(table, i);
        if kind == SUBQUERY_EXPRESSION {
            next = collect_seen(table, n, i, source, out, next);
            outer = Outer::Nothing;
        } else {
            outer = outer.after(kind, i);
        }
    }
    match outer.root() {
        Some(root) => collect_seen(table, n, root, source, out, next),
        None => next,
    }
}
