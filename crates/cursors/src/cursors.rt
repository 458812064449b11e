// The contexts at all cursors of a shared page (document 02, §2): one call, one check, and record 0's children read once for all.
ghost use Rattle.std.specs.Prelude.{[], length};
ghost use Rattle.table.specs.Rules.{offset_rules};
ghost use Rattle.lent.specs.Lists.{Written, Answers};
ghost use Rattle.contexts.specs.Context.{context_row};
ghost use Rattle.cursors.specs.Cursors.{contexts_at};
ghost use Rattle.starts.specs.inner.Ready.{Ready};

use conditions::whole::{MOST_OFFSETS, OFFSET_BYTES};
use contexts::context::code_of;
use cursor::cursor_context::context_from;
use forest::stretch::child_from;
use lent::list::put_entry;
use lent::number::{NUMBER_BYTES, word_at};
use lent::refusal::{Condition, Refusal, refused};
use starts::starts::begin_all;
use table::check::check_offsets;

// How many bytes a context's entry takes.
const CONTEXT_BYTES: usize = 4 * NUMBER_BYTES;

// Writes the contexts at the offsets from out's first byte on, and returns where the next would go.
fn collect_contexts(table: &[u8], source: &[u8], offsets: &[u8], out: &mut [u8]) -> usize
    requires { Ready table.now (length offsets.now) }
    ensures { Written context_row (contexts_at source.now table.now offsets.now) out.old 0
        out.new result }
{
    let first = child_from(table, 1);
    let mut starts = [first; MOST_OFFSETS];
    begin_all(table, offsets, first, &mut starts);
    let n = offsets.len() / OFFSET_BYTES;
    let mut next = 0;
    for i in 0..n {
        let offset = word_at(offsets, OFFSET_BYTES * i);
        let k = code_of(context_from(table, source, offset, starts[i]));
        let name = k.name;
        next = put_entry(out, next, &[k.number, name.start, name.end, k.index]);
    }
    next
}

// Lists the contexts at the offsets, for a table that is admitted.
fn list_contexts(
    table: &[u8],
    source: &[u8],
    offsets: &[u8],
    out: &mut [u8],
) -> Result<u32, Refusal>
    requires { Ready table.now (length offsets.now) }
    ensures { Answers [] context_row (contexts_at source.now table.now offsets.now) out.old result
        out.new }
{
    let entries = (offsets.len() / OFFSET_BYTES) as u32;
    if out.len() / CONTEXT_BYTES < entries as usize {
        return refused(Condition::NoRoom, entries);
    }
    collect_contexts(table, source, offsets, out);
    Ok(entries)
}

// What is being typed at each of the offsets.
pub fn cursor_contexts(
    table: &[u8],
    source: &[u8],
    offsets: &[u8],
    out: &mut [u8],
) -> Result<u32, Refusal>
    ensures { Answers (offset_rules table.now (length source.now) (length offsets.now)) context_row
        (contexts_at source.now table.now offsets.now) out.old result out.new }
{
    check_offsets(table, source, offsets)?;
    list_contexts(table, source, offsets, out)
}
