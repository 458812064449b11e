// The reading of a stretch's tokens in document order: one loop, for whatever is sought of them.
ghost use Rattle.std.specs.Prelude.{◌≡◌, ℕ, ◌<◌, IfSome};
ghost use Rattle.records.specs.Table.{count, records};
ghost use Rattle.forest.specs.Forest.{kids};
ghost use Rattle.forest.specs.inner.Ordered.{Ordered};
ghost use Rattle.tokens.specs.inner.Turns.{meant, swept};

use forest::stretch::reach_below;
use records::kinds::is_node;
use records::record::{count_of, depth_at, end_at, kind_at, start_at};
use tokens::sought::{Sought, Swept};
use turns::turns::{enters, turn};

// Nothing is read yet.
const NOTHING_READ: Swept = Swept {
    last: None,
    before: None,
    arguments: None,
};

// What is sought, below the first record of the stretch s. `reach` is how deep the next record may be, so that what stands
// in a node that is not gone into is passed over. The first token that starts after the offset ends it, also where it stands
// in such a node: tokens start in order, so none behind it counts. A node does not end it, since its span may hold any numbers.
pub fn sweep(s: &[u8], offset: usize, sought: Sought) -> Swept
    requires { Ordered s.now }
    ensures { ((base : ℕ) → meant s.now result ≡ swept sought offset (kids (records base s.now)))
        × IfSome result.last (λ i. i < count s.now) × IfSome result.before (λ i. i < count s.now) }
{
    let mut w = NOTHING_READ;
    let m = count_of(s);
    if m == 0 {
        return w;
    }
    let k = depth_at(s, 0) + 1;
    let mut reach = k;
    for i in 1..m {
        let d = depth_at(s, i);
        if d < k {
            return w;
        }
        let kind = kind_at(s, i);
        let start = start_at(s, i);
        if !is_node(kind) {
            if offset < start {
                return w;
            }
            if reach < d {
                continue;
            }
            w = turn(sought, offset, w, kind, start, i);
            reach = d;
        } else if d <= reach {
            reach = reach_below(d, enters(sought, offset, kind, start, end_at(s, i)));
        }
    }
    w
}
