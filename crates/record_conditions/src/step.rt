// Refusals 3, 4, 5, 12 and 6, of one record, and what is carried on to the next.
ghost use Rattle.std.specs.Prelude.{◌≡◌, not, ◌<◌, eqb};
ghost use Rattle.lent.specs.Numbers.{word_limit};
ghost use Rattle.records.specs.Table.{count, parent_at};
ghost use Rattle.record_conditions.specs.inner.Step.{after, strange, out_of_place, off_source, misfit_of};

use lent::refusal::Condition;
use records::kinds::{is_node, is_token};
use records::record::{Rec, parent_at};

// The most depth.
pub const MOST_DEPTH: usize = 63;

// How many depths a record after one may have: 0 to one below the deepest.
pub const DEPTHS: usize = MOST_DEPTH + 2;

// What is known before a record: how deep it may be, and the end of the last token.
#[derive(Clone, Copy)]
pub struct Known {
    pub deepest: usize,
    pub end: usize,
}

// Refusal 3: the kind is not listed.
fn strange(kind: usize) -> bool
    ensures { result ≡ strange kind }
{
    !(is_node(kind) | is_token(kind))
}

// Refusal 4: the record cannot stand here.
fn out_of_place(b: Known, r: Rec) -> bool
    ensures { result ≡ out_of_place b r }
{
    if r.index == 0 {
        !(is_node(r.kind) & (r.depth == 0))
    } else {
        (r.depth == 0) | (b.deepest < r.depth)
    }
}

// Refusal 12: record i carries another number than its parent's.
pub fn strays(table: &[u8], i: usize, parent: usize) -> bool
    requires { i < count table.now }
    ensures { result ≡ not (eqb (parent_at table.now i) parent) }
{
    parent_at(table, i) != parent
}

// Refusal 6: the token has a bad span, for a source of n bytes.
pub fn off_source(n: usize, b: Known, r: Rec) -> bool
    ensures { result ≡ off_source n b r }
{
    is_token(r.kind) & ((r.end < r.start) | (n < r.end) | (r.start < b.end))
}

// What is known after the record r.
pub fn after(b: Known, r: Rec) -> Known
    requires { r.depth < word_limit }
    ensures { result ≡ after b r }
{
    if is_token(r.kind) {
        Known {
            deepest: r.depth,
            end: r.end,
        }
    } else {
        Known {
            deepest: r.depth + 1,
            end: b.end,
        }
    }
}

// The first of 3, 4 and 5 that the record r breaks.
pub fn misfit(b: Known, r: Rec) -> Option<Condition>
    ensures { result ≡ misfit_of b r }
{
    if strange(r.kind) {
        return Some(Condition::UnlistedKind);
    }
    if out_of_place(b, r) {
        return Some(Condition::Misplaced);
    }
    if MOST_DEPTH < r.depth {
        return Some(Condition::TooDeep);
    }
    None
}
