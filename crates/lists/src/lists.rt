// One list of a root, whichever is asked for: its rows, how many they are, and the bytes that they take.
ghost use Rattle.std.specs.Prelude.{◌≡◌, [], ◌≤◌, ◌<◌, length};
ghost use Rattle.records.specs.Table.{count};
ghost use Rattle.conditions.specs.Conditions.{most_records};
ghost use Rattle.table.specs.Rules.{root_rules};
ghost use Rattle.lent.specs.Lists.{Answers};
ghost use Rattle.tables.specs.inner.Rows.{as_row};
ghost use Rattle.lists.specs.inner.Rows.{rows_at, width};

use clauses::clauses::ScopeList;
use collection::collection::collect_scope;
use forest::part::Part;
use forest::stretch::stretch_of;
use lent::list::list_walked;
use lent::refusal::Refusal;
use names::bindings::BINDING_BYTES;
use references::references::REFERENCE_BYTES;
use table::check::check_root;

// How many bytes an entry of a list takes.
fn width_of(asked: ScopeList) -> usize
    ensures { result ≡ width asked }
{
    match asked {
        ScopeList::WithNames => BINDING_BYTES,
        ScopeList::TableAliases => BINDING_BYTES,
        ScopeList::ColumnAliases => BINDING_BYTES,
        ScopeList::TableRefs => REFERENCE_BYTES,
    }
}

// One list of a root of a table that is admitted.
pub fn list_in(
    asked: ScopeList,
    table: &[u8],
    source: &[u8],
    root: usize,
    out: &mut [u8],
) -> Result<u32, Refusal>
    requires { (root < count table.now) × (count table.now ≤ most_records) }
    ensures { Answers [] as_row
        (rows_at asked source.now table.now root) out.old result out.new }
{
    let part = Part {
        bytes: stretch_of(table, root),
        base: root,
    };
    list_walked(
        |list| collect_scope(asked, &part, source, list, 0),
        width_of(asked),
        out,
    )
}

// One list of a named root: the check, and then the list.
pub fn list_of(
    asked: ScopeList,
    table: &[u8],
    source: &[u8],
    root: usize,
    out: &mut [u8],
) -> Result<u32, Refusal>
    ensures { Answers (root_rules table.now (length source.now) root) as_row
        (rows_at asked source.now table.now root) out.old result out.new }
{
    check_root(table, source, root)?;
    list_in(asked, table, source, root, out)
}
