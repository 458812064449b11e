// Everything at a cursor in one call: the context, the root and the four lists, each in a buffer of its own. The table is checked once.
ghost use Rattle.std.specs.Prelude.{◌≡◌, length};
ghost use Rattle.lent.specs.Lists.{put};
ghost use Rattle.table.specs.Rules.{verdict};
ghost use Rattle.cursor.specs.CursorContext.{context_at};
ghost use Rattle.everything.specs.Everything.{buffers, Everything};
ghost use Rattle.everything.specs.inner.Counted.{counted_row};

use contexts::context::code_of;
use cursor::cursor_context::context_at;
use cursor_root::root::root_at;
use four_lists::four_lists::{counts_in, put_lists};
use lent::list::put_entry;
use lent::refusal::Refusal;
use rooms::rooms::{Counts, room_for};
use table::check::check;

// Writes the entry: the context, the root and the counts.
fn put_everything(table: &[u8], source: &[u8], offset: usize, root: u32, c: Counts, out: &mut [u8])
    requires { Ok tt ≡ verdict table.now (length source.now) 0 }
    ensures { out.new ≡ put out.old 0 (counted_row (context_at source.now table.now offset) root c) }
{
    let k = code_of(context_at(table, source, offset));
    let name = k.name;
    let entry = [
        k.number,
        name.start,
        name.end,
        k.index,
        root as usize,
        c.names as usize,
        c.aliases as usize,
        c.columns as usize,
        c.refs as usize,
    ];
    put_entry(out, 0, &entry);
}

// Everything at the offset, for a table that is admitted: every room is looked at before a byte is written.
fn everything_in(
    table: &[u8],
    source: &[u8],
    offset: usize,
    out: &mut [u8],
    names: &mut [u8],
    aliases: &mut [u8],
    columns: &mut [u8],
    refs: &mut [u8],
) -> Result<u32, Refusal>
    requires { Ok tt ≡ verdict table.now (length source.now) 0 }
    ensures { Everything source.now table.now offset
        (buffers out.old names.old aliases.old columns.old refs.old)
        result
        (buffers out.new names.new aliases.new columns.new refs.new) }
{
    let root = root_at(table, offset);
    let c = counts_in(table, source, root as usize);
    let w = names.len();
    let a = aliases.len();
    let b = columns.len();
    room_for(c, out.len(), w, a, b, refs.len())?;
    put_everything(table, source, offset, root, c, out);
    put_lists(table, source, root as usize, names, aliases, columns, refs);
    Ok(1)
}

// Everything at the offset: the context, the root and how many entries each list has as one entry, and the four lists.
pub fn everything_at(
    table: &[u8],
    source: &[u8],
    offset: usize,
    out: &mut [u8],
    names: &mut [u8],
    aliases: &mut [u8],
    columns: &mut [u8],
    refs: &mut [u8],
) -> Result<u32, Refusal>
    ensures { Everything source.now table.now offset
        (buffers out.old names.old aliases.old columns.old refs.old)
        result
        (buffers out.new names.new aliases.new columns.new refs.new) }
{
    check(table, source)?;
    everything_in(table, source, offset, out, names, aliases, columns, refs)
}
