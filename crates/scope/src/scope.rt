// The four lists of a root: its WITH names, table aliases, column aliases and table references. Four questions, though each is one call: each promises its own
// definition, under the name that document 01 gives it.
ghost use Rattle.std.specs.Prelude.{length};
ghost use Rattle.table.specs.Rules.{root_rules};
ghost use Rattle.lent.specs.Lists.{Answers};
ghost use Rattle.references.specs.References.{reference_row};
ghost use Rattle.names.specs.Bindings.{binding_row};
ghost use Rattle.lists.specs.Scope.{with_names, table_aliases, column_aliases, table_refs};

use clauses::clauses::ScopeList;
use lent::refusal::Refusal;
use lists::lists::list_of;

// The WITH names of a root.
pub fn with_names(table: &[u8], source: &[u8], root: usize, out: &mut [u8]) -> Result<u32, Refusal>
    ensures { Answers (root_rules table.now (length source.now) root) binding_row
        (with_names source.now table.now root) out.old result out.new }
{
    list_of(ScopeList::WithNames, table, source, root, out)
}

// The table aliases of a root.
pub fn table_aliases(
    table: &[u8],
    source: &[u8],
    root: usize,
    out: &mut [u8],
) -> Result<u32, Refusal>
    ensures { Answers (root_rules table.now (length source.now) root) binding_row
        (table_aliases source.now table.now root) out.old result out.new }
{
    list_of(ScopeList::TableAliases, table, source, root, out)
}

// The column aliases of a root.
pub fn column_aliases(
    table: &[u8],
    source: &[u8],
    root: usize,
    out: &mut [u8],
) -> Result<u32, Refusal>
    ensures { Answers (root_rules table.now (length source.now) root) binding_row
        (column_aliases source.now table.now root) out.old result out.new }
{
    list_of(ScopeList::ColumnAliases, table, source, root, out)
}

// The table references of a root.
pub fn table_refs(table: &[u8], source: &[u8], root: usize, out: &mut [u8]) -> Result<u32, Refusal>
    ensures { Answers (root_rules table.now (length source.now) root) reference_row
        (table_refs source.now table.now root) out.old result out.new }
{
    list_of(ScopeList::TableRefs, table, source, root, out)
}
