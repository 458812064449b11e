// The table reading: the references and the aliases of FROM and JOIN.
ghost use Rattle.std.specs.Prelude.{ℕ, ◌+◌, ◌*◌, ◌≤◌, ◌<◌, Option, IfSome};
ghost use Rattle.forest.specs.Parts.{size, below};
ghost use Rattle.lent.specs.Lists.{farthest, Written};
ghost use Rattle.references.specs.References.{reference_bytes};
ghost use Rattle.tables.specs.Tables.{hand_on, list_alias, table_reading};
ghost use Rattle.tables.specs.inner.Rows.{as_row, rows_of, read_bytes};
ghost use Rattle.tables.specs.inner.Waiting.{pending_at, bound_at};

use crate::waiting::{alias_after, is_waiting, pending_of};
use forest::part::Part;
use forest::stretch::stretch_end;
use names::bindings::put_alias_name;
use records::kinds::{JOIN_CLAUSE, TABLE_ALIAS, TABLE_EXPRESSION, TABLE_IDENTIFIER};
use references::references::put_reference;

// What a table reading writes.
#[derive(Clone, Copy)]
pub enum Reads {
    Aliases,
    References,
}

// Writes the alias at record i, if aliases are read and a reference is pending, and returns where the next entry goes.
fn put_alias(
    reads: Reads,
    part: &Part,
    source: &[u8],
    name: Option<usize>,
    i: usize,
    out: &mut [u8],
    at: usize,
) -> usize
    requires { IfSome name (λ n. n < size part.now) × (i < size part.now) × (at < farthest) }
    ensures { ((alias : Option ℕ) → Written as_row (list_alias (rows_of reads) (pending_at source.now part.now.base part.now.bytes.now name alias)
        (bound_at source.now part.now.base part.now.bytes.now i)) out.old at out.new result) × (result ≤ at + reference_bytes) }
{
    match reads {
        Reads::References => at,
        Reads::Aliases => {
            if is_waiting(part.bytes, part.base, name) {
                put_alias_name(&part.stretch_of(i), source, out, at)
            } else {
                at
            }
        }
    }
}

// Writes the pending reference, if there is one and references are read, and returns where the next entry goes.
fn hand_on(
    reads: Reads,
    part: &Part,
    source: &[u8],
    name: Option<usize>,
    alias: Option<usize>,
    out: &mut [u8],
    at: usize,
) -> usize
    requires { IfSome name (λ n. n < size part.now) × IfSome alias (λ a. a < size part.now) × (at < farthest) }
    ensures { Written as_row (hand_on (rows_of reads) (pending_at source.now part.now.base part.now.bytes.now name alias))
        out.old at out.new result × (result ≤ at + reference_bytes) }
{
    match reads {
        Reads::Aliases => at,
        Reads::References => match pending_of(part.bytes, part.base, source, name, alias) {
            None => at,
            Some(t) => put_reference(t, out, at),
        },
    }
}

// The table reading of the children of the part's first record: writes what is read into out from byte `at` on,
// and returns where the next entry goes. The pending reference is carried by the records that make it: whole, it would stand in every call's frame.
pub fn collect_table_refs(
    reads: Reads,
    part: &Part,
    source: &[u8],
    out: &mut [u8],
    at: usize,
) -> usize
    requires { at + read_bytes * size part.now < farthest }
    ensures { Written as_row (table_reading (rows_of reads) source.now None (below part.now))
        out.old at out.new result
        × (result + reference_bytes ≤ at + read_bytes * size part.now) }
{
    let m = part.count();
    let mut next = at;
    let mut name = None;
    let mut alias = None;
    let mut i = part.node_from(1);
    // While, not for: the next child begins where the records of this one end.
    while i < m {
        let kind = part.kind_at(i);
        if kind == TABLE_IDENTIFIER {
            next = hand_on(reads, part, source, name, alias, out, next);
            name = Some(i);
            alias = None;
            i = part.node_from(stretch_end(part.bytes, i));
        } else if kind == TABLE_ALIAS {
            next = put_alias(reads, part, source, name, i, out, next);
            alias = Some(alias_after(part, source, alias, i));
            i = part.node_from(stretch_end(part.bytes, i));
        } else if kind == TABLE_EXPRESSION {
            let child = part.stretch_of(i);
            next = collect_table_refs(reads, &child, source, out, next);
            i = part.node_from(i + child.count());
        } else if kind == JOIN_CLAUSE {
            let child = part.stretch_of(i);
            next = hand_on(reads, part, source, name, alias, out, next);
            name = None;
            next = collect_table_refs(reads, &child, source, out, next);
            i = part.node_from(i + child.count());
        } else {
            i = part.node_from(i + 1);
        }
    }
    hand_on(reads, part, source, name, alias, out, next)
}
