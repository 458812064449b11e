// Plain nodes: no rule speaks of them, and nothing is gathered of them. Nested expressions are a run of such nodes.
ghost use Rattle.std.specs.Prelude.{◌<◌};
ghost use Rattle.records.specs.Table.{count};
ghost use Rattle.path.specs.inner.Plain.{Run};

use records::kinds::AGGREGATE_FUNCTION;
use records::range::is_holder;
use records::record::{count_of, depth_at, kind_at};

// The last kind of which a rule speaks: all after it are plain.
const LAST_RULED: usize = AGGREGATE_FUNCTION;

// From node j of s, below a node of this kind: where both are plain, the last of the run of plain nodes down from j in which each is the first child of
// the one before it and holds the offset; else j itself.
pub fn run_down(above: usize, s: &[u8], j: usize, offset: usize) -> usize
    requires { j < count s.now }
    ensures { Run above s.now j offset result }
{
    if above <= LAST_RULED {
        return j;
    }
    if kind_at(s, j) <= LAST_RULED {
        return j;
    }
    let m = count_of(s);
    let mut k = depth_at(s, j) + 1;
    for i in j..m - 1 {
        let next = i + 1;
        if depth_at(s, next) != k {
            return i;
        }
        if kind_at(s, next) <= LAST_RULED {
            return i;
        }
        if !is_holder(s, next, offset) {
            return i;
        }
        k += 1;
    }
    m - 1
}
