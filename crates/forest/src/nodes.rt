// From child node to child node: tokens are passed over.
ghost use Rattle.std.specs.Prelude.{◌≤◌};
ghost use Rattle.records.specs.Table.{count};
ghost use Rattle.forest.specs.inner.Nodes.{NodeChild};

use records::kinds::LAST_NODE;
use records::record::{count_of, depth_at, kind_at};

// The first child node of t's first record at or after record j, or the count of records.
pub fn node_from(t: &[u8], j: usize) -> usize
    requires { (1 ≤ j) × (j ≤ count t.now) }
    ensures { NodeChild t.now j result }
{
    let m = count_of(t);
    let k = depth_at(t, 0) + 1;
    for i in j..m {
        let d = depth_at(t, i);
        if k < d {
            continue;
        }
        if d < k {
            return m;
        }
        if kind_at(t, i) <= LAST_NODE {
            return i;
        }
    }
    m
}
