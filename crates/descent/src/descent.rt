// The path: from record 0 down to the offset.
ghost use Rattle.std.specs.Prelude.{◌≡◌, ◌+◌, ◌<◌};
ghost use Rattle.records.specs.Table.{count};
ghost use Rattle.lent.specs.Numbers.{word_limit};
ghost use Rattle.path.specs.Path.{path_at};
ghost use Rattle.path.specs.inner.Gathered.{Within, gathered};
ghost use Rattle.path.specs.inner.Starts.{Starts};

use forest::stretch::{child_from, rest_from};
use path::gathered::{Gathered, NOTHING, enter, settle};
use path::plain::run_down;
use path::rules::rule_by_kind;
use records::range::is_holder;
use records::record::{count_of, kind_at};

// The way from record 0, which is on it whatever its span, down to the offset.
pub fn find_node_path(table: &[u8], offset: usize) -> Gathered
    requires { (0 < count table.now) × (count table.now < word_limit) }
    ensures { (result ≡ gathered (path_at table.now offset)) × Within (count table.now) result }
{
    let first = child_from(table, 1);
    path_from(table, offset, first)
}

// The same, where no child of record 0 before the first that is named holds the offset. Each turn enters the first record of a part, and seeks its
// first child that holds the offset: the part from there on is the next, or from the last of a run of plain nodes down from there.
pub fn path_from(table: &[u8], offset: usize, first: usize) -> Gathered
    requires { ((0 < count table.now) × (count table.now < word_limit)) × Starts table.now offset first }
    ensures { (result ≡ gathered (path_at table.now offset)) × Within (count table.now) result }
{
    let mut g = NOTHING;
    let mut s = table;
    let mut base = 0;
    let mut i = first;
    // Loops, not for: the walk goes down into a child and on in it, or to where the records of the child end.
    'descent: loop {
        g = enter(g, kind_at(s, 0), base);
        let m = count_of(s);
        let found = loop {
            if i >= m {
                break 'descent;
            }
            if is_holder(s, i, offset) {
                break i;
            }
            i = child_from(s, i + 1);
        };
        let last = run_down(g.kind, s, found, offset);
        let part = rest_from(s, last);
        base += last;
        i = child_from(part, 1);
        s = part;
    }
    settle(g, rule_by_kind(g.kind))
}
