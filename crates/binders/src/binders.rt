// What the WITH items and the column aliases of a clause bind, written as entries: one walk for both.
ghost use Rattle.std.specs.Prelude.{◌≡◌, ◌+◌, ◌*◌, ◌≤◌, ◌<◌, eqb};
ghost use Rattle.forest.specs.Parts.{size, head, below};
ghost use Rattle.lent.specs.Lists.{farthest, Written};
ghost use Rattle.names.specs.Bindings.{entry, with_items, select_aliases, binding_bytes, binding_row};
ghost use Rattle.binders.specs.inner.Binders.{binder_kind, is_list, binds, names};

use forest::part::Part;
use names::bindings::{put_alias_name, put_cte};
use records::kinds::{COLUMN_ALIAS, COLUMN_LIST, EXPRESSION_LIST, WITH_EXPRESSION_ITEM};

// What binds the names of a list: a WITH item or a column alias.
#[derive(Clone, Copy)]
pub enum Binder {
    Item,
    Alias,
}

// Is a node of kind k what binds the names?
fn is_binder(binder: Binder, k: usize) -> bool
    ensures { result ≡ eqb k (binder_kind binder) }
{
    match binder {
        Binder::Item => k == WITH_EXPRESSION_ITEM,
        Binder::Alias => k == COLUMN_ALIAS,
    }
}

// Is a node of kind k a list that is gone through?
fn is_list(binder: Binder, k: usize) -> bool
    ensures { result ≡ is_list binder k }
{
    match binder {
        Binder::Item => k == COLUMN_LIST,
        Binder::Alias => (k == COLUMN_LIST) | (k == EXPRESSION_LIST),
    }
}

// Writes what the first record of the part binds.
fn put_name(binder: Binder, part: &Part, source: &[u8], out: &mut [u8], at: usize) -> usize
    requires { at < farthest }
    ensures { Written binding_row
        (entry (binds binder source.now (head part.now) (below part.now)))
        out.old at out.new result × (result ≤ at + binding_bytes) }
{
    match binder {
        Binder::Item => put_cte(part, source, out, at),
        Binder::Alias => put_alias_name(part, source, out, at),
    }
}

// Writes what the children of the part's first record bind into out from byte `at` on, also those in lists, and returns where the
// next entry goes.
fn collect_bound(binder: Binder, part: &Part, source: &[u8], out: &mut [u8], at: usize) -> usize
    requires { at + binding_bytes * size part.now < farthest }
    ensures { Written binding_row (names binder source.now (below part.now)) out.old at out.new result
        × (result ≤ at + binding_bytes * size part.now) }
{
    let m = part.count();
    let mut next = at;
    let mut i = part.node_from(1);
    // While, not for: the next child begins where the records of this one end.
    while i < m {
        let kind = part.kind_at(i);
        if is_binder(binder, kind) {
            let child = part.stretch_of(i);
            next = put_name(binder, &child, source, out, next);
            i = part.node_from(i + child.count());
        } else if is_list(binder, kind) {
            let child = part.stretch_of(i);
            next = collect_bound(binder, &child, source, out, next);
            i = part.node_from(i + child.count());
        } else {
            i = part.node_from(i + 1);
        }
    }
    next
}

// The items of a WITH clause, the first record of the part.
pub fn collect_ctes(part: &Part, source: &[u8], out: &mut [u8], at: usize) -> usize
    requires { at + binding_bytes * size part.now < farthest }
    ensures { Written binding_row (with_items source.now (below part.now)) out.old at out.new result
        × (result ≤ at + binding_bytes * size part.now) }
{
    collect_bound(Binder::Item, part, source, out, at)
}

// The column aliases of a SELECT clause, the first record of the part.
pub fn collect_column_aliases(part: &Part, source: &[u8], out: &mut [u8], at: usize) -> usize
    requires { at + binding_bytes * size part.now < farthest }
    ensures { Written binding_row (select_aliases source.now (below part.now)) out.old at out.new result
        × (result ≤ at + binding_bytes * size part.now) }
{
    collect_bound(Binder::Alias, part, source, out, at)
}
