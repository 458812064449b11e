// The WITH names at the cursor: those of its root, and those of the queries around it that it sees (document 02, §4).
ghost use Rattle.std.specs.Prelude.{length};
ghost use Rattle.table.specs.Rules.{rules};
ghost use Rattle.lent.specs.Lists.{Answers};
ghost use Rattle.names.specs.Bindings.{binding_row};
ghost use Rattle.offers.specs.WithNames.{with_names_at};

use cursor_root::root::root_at;
use lent::refusal::Refusal;
use offered::offered::list_offered;
use table::check::check;

// The WITH names that are offered at the offset: those of the cursor's root, then those that it sees of each enclosing root, nearest first.
pub fn with_names_at(
    table: &[u8],
    source: &[u8],
    offset: usize,
    out: &mut [u8],
) -> Result<u32, Refusal>
    ensures { Answers (rules table.now (length source.now) 0) binding_row
        (with_names_at source.now table.now offset)
        out.old result out.new }
{
    check(table, source)?;
    let root = root_at(table, offset) as usize;
    list_offered(table, root, source, out)
}
