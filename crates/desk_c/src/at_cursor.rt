// The C symbols of the questions at an offset.
ghost use Rattle.std.specs.Prelude.{◌≡◌, [], ◌∷◌, length};
ghost use Rattle.lent.specs.Lists.{reply};
ghost use Rattle.table.specs.Rules.{rules, offset_rules, verdict};
ghost use Rattle.names.specs.Bindings.{binding_row};
ghost use Rattle.references.specs.References.{reference_row};
ghost use Rattle.lists.specs.Scope.{table_aliases, column_aliases, table_refs};
ghost use Rattle.statement.specs.Statement.{enclosing_at};
ghost use Rattle.contexts.specs.Context.{context_row};
ghost use Rattle.cursor.specs.CursorContext.{context_at};
ghost use Rattle.cursors.specs.Cursors.{contexts_at};
ghost use Rattle.cursor_root.specs.Root.{root_at};
ghost use Rattle.replies.specs.Reply.{number_reply, record_reply, AnswersC};
ghost use Rattle.offers.specs.WithNames.{with_names_at};
ghost use Rattle.everything.specs.Everything.{buffers, Leaves, everything_reply};

use desk::at_cursor;

// The statement that encloses the offset. High half of an answer: its record, or 4294967295 for none.
#[unsafe(no_mangle)]
pub extern "C" fn desk_enclosing_statement(table: &[u8], source: &[u8], offset: u32) -> u64
    ensures { result ≡ record_reply (reply (verdict table.now (length source.now) 0)
        (enclosing_at table.now offset)) }
{
    at_cursor::desk_enclosing_statement(table, source, offset)
}

// The cursor's root. High half of an answer: its record.
#[unsafe(no_mangle)]
pub extern "C" fn desk_cursor_root(table: &[u8], source: &[u8], offset: u32) -> u64
    ensures { result ≡ number_reply (reply (verdict table.now (length source.now) 0) (root_at table.now offset)) }
{
    at_cursor::desk_cursor_root(table, source, offset)
}

// The WITH names offered at the offset: those of the cursor's root, then those that it sees of the queries around it. High half of an answer: the
// entries written.
#[unsafe(no_mangle)]
pub extern "C" fn desk_with_names_at(
    table: &[u8],
    source: &[u8],
    offset: u32,
    out: &mut [u8],
) -> u64
    ensures { AnswersC (rules table.now (length source.now) 0) binding_row
        (with_names_at source.now table.now offset) out.old result out.new }
{
    at_cursor::desk_with_names_at(table, source, offset, out)
}

// The table aliases offered at the offset. High half of an answer: the entries written.
#[unsafe(no_mangle)]
pub extern "C" fn desk_table_aliases_at(
    table: &[u8],
    source: &[u8],
    offset: u32,
    out: &mut [u8],
) -> u64
    ensures { AnswersC (rules table.now (length source.now) 0) binding_row
        (table_aliases source.now table.now (root_at table.now offset)) out.old result out.new }
{
    at_cursor::desk_table_aliases_at(table, source, offset, out)
}

// The column aliases offered at the offset. High half of an answer: the entries written.
#[unsafe(no_mangle)]
pub extern "C" fn desk_column_aliases_at(
    table: &[u8],
    source: &[u8],
    offset: u32,
    out: &mut [u8],
) -> u64
    ensures { AnswersC (rules table.now (length source.now) 0) binding_row
        (column_aliases source.now table.now (root_at table.now offset)) out.old result out.new }
{
    at_cursor::desk_column_aliases_at(table, source, offset, out)
}

// The table references offered at the offset. High half of an answer: the entries written.
#[unsafe(no_mangle)]
pub extern "C" fn desk_table_refs_at(
    table: &[u8],
    source: &[u8],
    offset: u32,
    out: &mut [u8],
) -> u64
    ensures { AnswersC (rules table.now (length source.now) 0) reference_row
        (table_refs source.now table.now (root_at table.now offset)) out.old result out.new }
{
    at_cursor::desk_table_refs_at(table, source, offset, out)
}

// What is being typed at the offset, as a list of one entry. High half of an answer: 1.
#[unsafe(no_mangle)]
pub extern "C" fn desk_cursor_context(
    table: &[u8],
    source: &[u8],
    offset: u32,
    out: &mut [u8],
) -> u64
    ensures { AnswersC (rules table.now (length source.now) 0) context_row
        (context_at source.now table.now offset ∷ []) out.old result out.new }
{
    at_cursor::desk_cursor_context(table, source, offset, out)
}

// What is being typed at each of the offsets, of four bytes each. High half of an answer: the entries written.
#[unsafe(no_mangle)]
pub extern "C" fn desk_cursor_contexts(
    table: &[u8],
    source: &[u8],
    offsets: &[u8],
    out: &mut [u8],
) -> u64
    ensures { AnswersC (offset_rules table.now (length source.now) (length offsets.now)) context_row
        (contexts_at source.now table.now offsets.now) out.old result out.new }
{
    at_cursor::desk_cursor_contexts(table, source, offsets, out)
}

// Everything at the offset in one call: the context, the root and how many entries each list has as one entry, and the four lists, each in its own
// buffer. High half of an answer: 1.
#[unsafe(no_mangle)]
pub extern "C" fn desk_everything_at(
    table: &[u8],
    source: &[u8],
    offset: u32,
    out: &mut [u8],
    names: &mut [u8],
    aliases: &mut [u8],
    columns: &mut [u8],
    refs: &mut [u8],
) -> u64
    ensures value { result ≡ number_reply (everything_reply source.now table.now offset
        (buffers out.old names.old aliases.old columns.old refs.old)) }
    ensures leaves { Leaves source.now table.now offset
        (buffers out.old names.old aliases.old columns.old refs.old)
        (buffers out.new names.new aliases.new columns.new refs.new) }
{
    at_cursor::desk_everything_at(table, source, offset, out, names, aliases, columns, refs)
}
