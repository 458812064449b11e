// Everything at a cursor in one call, held against the single questions: proved from the promise of the call that it hands on to, and from nothing else.
#![tactic(auto)]

ghost use Rattle.everything.specs.Everything.{buffers};
ghost use Rattle.demands.specs.AtOnce.{AtOnce};

use desk::at_cursor::desk_everything_at;

// Asks for everything at a cursor in one call, which has a buffer for each list: it gives what the single questions give, or is refused as they are.
pub fn ask_at_once(
    table: &[u8],
    source: &[u8],
    offset: u32,
    out: &mut [u8],
    names: &mut [u8],
    aliases: &mut [u8],
    columns: &mut [u8],
    refs: &mut [u8],
) -> u64
    ensures { AtOnce source.now table.now offset
        (buffers out.old names.old aliases.old columns.old refs.old)
        result
        (buffers out.new names.new aliases.new columns.new refs.new) }
{
    desk_everything_at(table, source, offset, out, names, aliases, columns, refs)
}
