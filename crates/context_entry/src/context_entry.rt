// The context at a cursor, written as an entry.
ghost use Rattle.std.specs.Prelude.{[], ◌∷◌, length};
ghost use Rattle.table.specs.Rules.{rules};
ghost use Rattle.lent.specs.Lists.{Answers};
ghost use Rattle.contexts.specs.Context.{context_row};
ghost use Rattle.cursor.specs.CursorContext.{context_at};

use contexts::context::{CursorContext, code_of};
use cursor::cursor_context::cursor_context;
use lent::list::put_entry;
use lent::number::NUMBER_BYTES;
use lent::refusal::{Condition, Refusal, refused};

// How many bytes a context takes.
const CONTEXT_BYTES: usize = 4 * NUMBER_BYTES;

// Writes a context's entry where there is room for it.
pub fn list_context(c: CursorContext, out: &mut [u8]) -> Result<u32, Refusal>
    ensures { Answers [] context_row
        (c ∷ []) out.old result out.new }
{
    let k = code_of(c);
    let name = k.name;
    if out.len() < CONTEXT_BYTES {
        return refused(Condition::NoRoom, 1);
    }
    let entry = [k.number, name.start, name.end, k.index];
    put_entry(out, 0, &entry);
    Ok(1)
}

// What is being typed at the offset, as a list of one entry.
pub fn context_entry_at(
    table: &[u8],
    source: &[u8],
    offset: usize,
    out: &mut [u8],
) -> Result<u32, Refusal>
    ensures { Answers (rules table.now (length source.now) 0) context_row
        (context_at source.now table.now offset ∷ []) out.old result out.new }
{
    let c = cursor_context(table, source, offset)?;
    list_context(c, out)
}
