// The four lists of a root at once, each in a buffer of its own: how many entries they have, and their bytes.
ghost use Rattle.std.specs.Prelude.{◌≡◌, [], ◌≤◌, ◌<◌, length};
ghost use Rattle.lent.specs.Lists.{lent};
ghost use Rattle.records.specs.Table.{count, depth_at};
ghost use Rattle.conditions.specs.Conditions.{most_records, most_depth};
ghost use Rattle.forest.specs.inner.Climbing.{Climbs};
ghost use Rattle.names.specs.Bindings.{binding_row};
ghost use Rattle.references.specs.References.{reference_row};
ghost use Rattle.lists.specs.Scope.{table_aliases, column_aliases, table_refs};
ghost use Rattle.lists.specs.inner.Rows.{rows_at};
ghost use Rattle.enclosing.specs.Offered.{offered_in};
ghost use Rattle.four_lists.specs.inner.Counts.{entries_in, counts_in};

use clauses::clauses::ScopeList;
use lent::refusal::Refusal;
use lists::lists::list_in;
use offered::offered::list_offered;
use rooms::rooms::Counts;

// How many entries a list has by its reply: those that were written, or those that had no room.
fn entries_in(l: Result<u32, Refusal>) -> u32
    ensures { result ≡ entries_in l }
{
    match l {
        Ok(n) => n,
        Err(r) => r.detail,
    }
}

// How many entries one list of the root has: asked for in a buffer of no bytes.
fn count_in(asked: ScopeList, table: &[u8], source: &[u8], root: usize) -> u32
    requires { (root < count table.now) × (count table.now ≤ most_records) }
    ensures { result ≡ length (rows_at asked source.now table.now root) }
{
    let mut none = [0u8; 0];
    entries_in(list_in(asked, table, source, root, &mut none))
}

// How many WITH names are offered at the root.
fn count_offered(table: &[u8], source: &[u8], root: usize) -> u32
    requires { ((root < count table.now) × (count table.now ≤ most_records) × (depth_at table.now root ≤ most_depth)) × Climbs table.now }
    ensures { result ≡ length (offered_in source.now table.now root) }
{
    let mut none = [0u8; 0];
    entries_in(list_offered(table, root, source, &mut none))
}

// How many entries each list of the root has.
pub fn counts_in(table: &[u8], source: &[u8], root: usize) -> Counts
    requires { ((root < count table.now) × (count table.now ≤ most_records) × (depth_at table.now root ≤ most_depth)) × Climbs table.now }
    ensures { result ≡ counts_in source.now table.now root }
{
    Counts {
        names: count_offered(table, source, root),
        aliases: count_in(ScopeList::TableAliases, table, source, root),
        columns: count_in(ScopeList::ColumnAliases, table, source, root),
        refs: count_in(ScopeList::TableRefs, table, source, root),
    }
}

// Writes the four lists of the root.
pub fn put_lists(
    table: &[u8],
    source: &[u8],
    root: usize,
    names: &mut [u8],
    aliases: &mut [u8],
    columns: &mut [u8],
    refs: &mut [u8],
)
    requires { ((root < count table.now) × (count table.now ≤ most_records) × (depth_at table.now root ≤ most_depth)) × Climbs table.now }
    ensures { (names.new ≡ lent [] binding_row (offered_in source.now table.now root) names.old)
        × (aliases.new ≡ lent [] binding_row (table_aliases source.now table.now root) aliases.old)
        × (columns.new ≡ lent [] binding_row (column_aliases source.now table.now root) columns.old)
        × (refs.new ≡ lent [] reference_row (table_refs source.now table.now root) refs.old) }
{
    // each leaves its buffer as it was where it has no room
    let _ = list_offered(table, root, source, names);
    let _ = list_in(ScopeList::TableAliases, table, source, root, aliases);
    let _ = list_in(ScopeList::ColumnAliases, table, source, root, columns);
    let _ = list_in(ScopeList::TableRefs, table, source, root, refs);
}
