// A loop that only says that every record is in order, and says it fast.
ghost use Rattle.std.specs.Prelude.{◌≡◌, ℕ, true, ◌+◌, ◌≤◌, ◌<◌, IfSome};
ghost use Rattle.lent.specs.Verdicts.{first};
ghost use Rattle.records.specs.Table.{count};
ghost use Rattle.conditions.specs.Conditions.{most_records};
ghost use Rattle.refusals.specs.ByRecord.{rules_from};
ghost use Rattle.in_order.specs.inner.Fast.{first_fits, span_fits, InOrder};

use record_conditions::step::{DEPTHS, MOST_DEPTH};
use records::kinds::{LAST_NODE, is_token};
use records::record::{count_of, depth_at, end_at, kind_at, parent_at, start_at};

// Record 0 is a node of depth 0 that carries 0.
fn first_fits(table: &[u8]) -> bool
    requires { 0 < count table.now }
    ensures { result ≡ first_fits table.now }
{
    if LAST_NODE < kind_at(table, 0) {
        return false;
    }
    if depth_at(table, 0) != 0 {
        return false;
    }
    parent_at(table, 0) == 0
}

// A token's span is not before the last token's end.
fn span_fits(start: usize, end: usize, last: usize) -> bool
    ensures { result ≡ span_fits start end last }
{
    if start < last {
        return false;
    }
    start <= end
}

// What a record is expected to be, where those before it fit: how deep it may be, and is unless it goes up; the node that it then carries; and no earlier
// than the last token's end.
#[derive(Clone, Copy)]
struct Expected {
    limit: usize,
    parent: u32,
    last: usize,
}

// What is expected after record i, if it fits. `nodes[d]` is the last node one less deep than d.
fn follow(table: &[u8], i: usize, e: Expected, nodes: &mut [u32]) -> Option<Expected>
    requires { ((1 ≤ i) × (i < count table.now) × (count table.now ≤ most_records))
        × InOrder table.now i e.limit e.parent e.last nodes.old }
    ensures { IfSome result (λ x. InOrder table.now (i + 1) x.limit x.parent x.last nodes.new) }
{
    let depth = depth_at(table, i);
    let mut parent = e.parent;
    if depth != e.limit {
        if e.limit < depth {
            return None;
        }
        if depth == 0 {
            return None;
        }
        parent = nodes[depth];
    }
    if parent_at(table, i) as u32 != parent {
        return None;
    }
    let kind = kind_at(table, i);
    if is_token(kind) {
        let end = end_at(table, i);
        if !span_fits(start_at(table, i), end, e.last) {
            return None;
        }
        return Some(Expected {
            limit: depth,
            parent,
            last: end,
        });
    }
    if LAST_NODE < kind {
        return None;
    }
    if MOST_DEPTH <= depth {
        return Some(Expected {
            limit: depth,
            parent,
            last: e.last,
        });
    }
    nodes[depth + 1] = i as u32;
    Some(Expected {
        limit: depth + 1,
        parent: i as u32,
        last: e.last,
    })
}

// The end of the last token, if every record is in order; ends rise, so that a source that reaches it has all within it. Two records at a turn.
fn last_end_in_order(table: &[u8]) -> Option<usize>
    requires { (0 < count table.now) × (count table.now ≤ most_records) }
    ensures { IfSome result (λ last. (n : ℕ) → last ≤ n → Ok tt ≡ first (rules_from table.now n 0 (count table.now))) }
{
    let m = count_of(table);
    if !first_fits(table) {
        return None;
    }
    let mut nodes = [0u32; DEPTHS];
    let mut e = Expected {
        limit: 1,
        parent: 0,
        last: 0,
    };
    let before_last = m - 1;
    let mut i = 1;
    // While, not for: two records at a turn, or the check takes more instructions than its bar.
    while i < before_last {
        e = follow(table, i, e, &mut nodes)?;
        e = follow(table, i + 1, e, &mut nodes)?;
        i += 2;
    }
    if i < m {
        e = follow(table, i, e, &mut nodes)?;
    }
    Some(e.last)
}

// Is every record in order, for a source of n bytes? It says only that, and says it fast: where it is so, nothing more need be looked at.
pub fn all_in_order(table: &[u8], n: usize) -> bool
    requires { (0 < count table.now) × (count table.now ≤ most_records) }
    ensures { result ≡ true → Ok tt ≡ first (rules_from table.now n 0 (count table.now)) }
{
    match last_end_in_order(table) {
        Some(last) => last <= n,
        None => false,
    }
}
