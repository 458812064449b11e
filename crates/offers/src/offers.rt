// The scope at the cursor: the aliases, columns and references of its root. The WITH names stand in with_names. Three questions, as in scope.
ghost use Rattle.std.specs.Prelude.{length};
ghost use Rattle.table.specs.Rules.{rules};
ghost use Rattle.lent.specs.Lists.{Answers};
ghost use Rattle.names.specs.Bindings.{binding_row};
ghost use Rattle.references.specs.References.{reference_row};
ghost use Rattle.tables.specs.inner.Rows.{as_row};
ghost use Rattle.lists.specs.Scope.{table_aliases, column_aliases, table_refs};
ghost use Rattle.lists.specs.inner.Rows.{rows_at};
ghost use Rattle.cursor_root.specs.Root.{root_at};

use clauses::clauses::ScopeList;
use cursor_root::root::root_at;
use lent::refusal::Refusal;
use lists::lists::list_in;
use table::check::check;

// One list at the offset: that of the cursor's root. The table is checked once.
fn offer(
    asked: ScopeList,
    table: &[u8],
    source: &[u8],
    offset: usize,
    out: &mut [u8],
) -> Result<u32, Refusal>
    ensures { Answers (rules table.now (length source.now) 0) as_row
        (rows_at asked source.now table.now (root_at table.now offset)) out.old result out.new }
{
    check(table, source)?;
    let root = root_at(table, offset) as usize;
    list_in(asked, table, source, root, out)
}

// The table aliases that are offered at the offset: those of the cursor's root alone.
pub fn table_aliases_at(
    table: &[u8],
    source: &[u8],
    offset: usize,
    out: &mut [u8],
) -> Result<u32, Refusal>
    ensures { Answers (rules table.now (length source.now) 0) binding_row
        (table_aliases source.now table.now (root_at table.now offset)) out.old result out.new }
{
    offer(ScopeList::TableAliases, table, source, offset, out)
}

// The column aliases that are offered at the offset: those of the cursor's root alone.
pub fn column_aliases_at(
    table: &[u8],
    source: &[u8],
    offset: usize,
    out: &mut [u8],
) -> Result<u32, Refusal>
    ensures { Answers (rules table.now (length source.now) 0) binding_row
        (column_aliases source.now table.now (root_at table.now offset)) out.old result out.new }
{
    offer(ScopeList::ColumnAliases, table, source, offset, out)
}

// The table references that are offered at the offset: those of the cursor's root alone.
pub fn table_refs_at(
    table: &[u8],
    source: &[u8],
    offset: usize,
    out: &mut [u8],
) -> Result<u32, Refusal>
    ensures { Answers (rules table.now (length source.now) 0) reference_row
        (table_refs source.now table.now (root_at table.now offset)) out.old result out.new }
{
    offer(ScopeList::TableRefs, table, source, offset, out)
}
