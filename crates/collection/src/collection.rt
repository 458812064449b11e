// Collection: a node's own part, and then each child's.
ghost use Rattle.std.specs.Prelude.{◌+◌, ◌*◌, ◌≤◌, ◌<◌};
ghost use Rattle.records.specs.Table.{kind_at};
ghost use Rattle.forest.specs.Parts.{size, below};
ghost use Rattle.lent.specs.Lists.{farthest, Written};
ghost use Rattle.collection.specs.Collection.{own_tables, collection_of};
ghost use Rattle.tables.specs.inner.Rows.{as_row, rows_of, read_bytes};
ghost use Rattle.collection.specs.inner.Rows.{own_rows, own_bytes};

use binders::binders::{collect_column_aliases, collect_ctes};
use clauses::clauses::{ScopeList, hands_on};
use forest::part::Part;
use records::kinds::{FROM_CLAUSE, JOIN_CLAUSE, SELECT_CLAUSE, WITH_CLAUSE};
use tables::tables::{Reads, collect_table_refs};

// The own part of a node in a list of what a table reading reads.
fn own_tables(reads: Reads, part: &Part, source: &[u8], out: &mut [u8], at: usize) -> usize
    requires { at + read_bytes * size part.now < farthest }
    ensures { Written as_row (own_tables (rows_of reads) source.now (kind_at part.now.bytes.now 0)
        (below part.now)) out.old at out.new result
        × (result ≤ at + read_bytes * size part.now) }
{
    let kind = part.kind_at(0);
    if (kind == FROM_CLAUSE) | (kind == JOIN_CLAUSE) {
        collect_table_refs(reads, part, source, out, at)
    } else {
        at
    }
}

// The own part of a node, the first record of the part, in the list that is asked for.
fn own_part(asked: ScopeList, part: &Part, source: &[u8], out: &mut [u8], at: usize) -> usize
    requires { at + read_bytes * size part.now < farthest }
    ensures { Written as_row (own_rows asked source.now (kind_at part.now.bytes.now 0) (below part.now))
        out.old at out.new result
        × (result ≤ at + read_bytes * size part.now) }
{
    let kind = part.kind_at(0);
    match asked {
        ScopeList::WithNames => {
            if kind == WITH_CLAUSE {
                collect_ctes(part, source, out, at)
            } else {
                at
            }
        }
        ScopeList::ColumnAliases => {
            if kind == SELECT_CLAUSE {
                collect_column_aliases(part, source, out, at)
            } else {
                at
            }
        }
        ScopeList::TableAliases => own_tables(Reads::Aliases, part, source, out, at),
        ScopeList::TableRefs => own_tables(Reads::References, part, source, out, at),
    }
}

// The collection of the node at the head of the part; a child in which there is nothing to collect is passed over.
// Writes the list that is asked for into out from byte `at` on, and returns where the next entry goes.
pub fn collect_scope(
    asked: ScopeList,
    part: &Part,
    source: &[u8],
    out: &mut [u8],
    at: usize,
) -> usize
    requires { at + own_bytes * size part.now < farthest }
    ensures { Written as_row (collection_of (own_rows asked source.now) part.now.base part.now.bytes.now) out.old at out.new result
        × (result ≤ at + own_bytes * size part.now) }
{
    let m = part.count();
    let mut next = own_part(asked, part, source, out, at);
    if part.kind_at(0) == WITH_CLAUSE {
        return next;
    }
    let mut i = part.node_from(1);
    // While, not for: the next child begins where the records of this one end.
    while i < m {
        let child = part.stretch_of(i);
        if hands_on(asked, child.bytes) {
            next = collect_scope(asked, &child, source, out, next);
            i = part.node_from(i + child.count());
        } else {
            i = part.node_from(i + child.count());
        }
    }
    next
}
