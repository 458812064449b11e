// The C symbols of the desk: each calls the function of its name in desk, and keeps the same promise. Twins for C: the archive
// is a static library, on which no crate can stand, and Rattle programs ask desk.
#![tactic(auto)]

pub mod at_cursor;

ghost use Rattle.std.specs.Prelude.{◌≡◌, length};
ghost use Rattle.lent.specs.Lists.{reply};
ghost use Rattle.table.specs.Rules.{rules, root_rules, number_rules, verdict};
ghost use Rattle.forest.specs.Above.{above};
ghost use Rattle.above.specs.Above.{above_row};
ghost use Rattle.class_list.specs.Classes.{class_row as class_row, classes_of};
ghost use Rattle.brackets.specs.Brackets.{opener_row as opener_row, stack_left, openers_left, hint_of};
ghost use Rattle.names.specs.Bindings.{binding_row};
ghost use Rattle.references.specs.References.{reference_row};
ghost use Rattle.lists.specs.Scope.{with_names, table_aliases, column_aliases, table_refs};
ghost use Rattle.replies.specs.Reply.{verdict_reply, record_reply, AnswersC};

// The layout of records and entries, by its number: a host asks for it by its name, so that one of another layout does not link.
#[unsafe(no_mangle)]
pub extern "C" fn desk_layout_3() -> u64
    ensures { result ≡ 3 }
{
    desk::desk_layout_3()
}

// Is the table admitted? High half of an answer: 0.
#[unsafe(no_mangle)]
pub extern "C" fn desk_check(table: &[u8], source: &[u8]) -> u64
    ensures { result ≡ verdict_reply (verdict table.now (length source.now) 0) }
{
    desk::desk_check(table, source)
}

// The classed tokens. High half of an answer: the entries written.
#[unsafe(no_mangle)]
pub extern "C" fn desk_token_classes(table: &[u8], source: &[u8], out: &mut [u8]) -> u64
    ensures { AnswersC (rules table.now (length source.now) 0) class_row
        (classes_of source.now table.now) out.old result out.new }
{
    desk::desk_token_classes(table, source, out)
}

// The openers left. High half of an answer: the entries written.
#[unsafe(no_mangle)]
pub extern "C" fn desk_openers_left(table: &[u8], source: &[u8], out: &mut [u8]) -> u64
    ensures { AnswersC (rules table.now (length source.now) 0) opener_row
        (openers_left table.now) out.old result out.new }
{
    desk::desk_openers_left(table, source, out)
}

// The opener that a message speaks of. High half of an answer: its record, or 4294967295 for none.
#[unsafe(no_mangle)]
pub extern "C" fn desk_bracket_hint(table: &[u8], source: &[u8], message: &[u8]) -> u64
    ensures { result ≡ record_reply (reply (verdict table.now (length source.now) (length message.now))
        (hint_of message.now (stack_left table.now))) }
{
    desk::desk_bracket_hint(table, source, message)
}

// The WITH names of a root. High half of an answer: the entries written.
#[unsafe(no_mangle)]
pub extern "C" fn desk_with_names(table: &[u8], source: &[u8], root: u32, out: &mut [u8]) -> u64
    ensures { AnswersC (root_rules table.now (length source.now) root) binding_row
        (with_names source.now table.now root) out.old result out.new }
{
    desk::desk_with_names(table, source, root, out)
}

// The table aliases of a root. High half of an answer: the entries written.
#[unsafe(no_mangle)]
pub extern "C" fn desk_table_aliases(table: &[u8], source: &[u8], root: u32, out: &mut [u8]) -> u64
    ensures { AnswersC (root_rules table.now (length source.now) root) binding_row
        (table_aliases source.now table.now root) out.old result out.new }
{
    desk::desk_table_aliases(table, source, root, out)
}

// The column aliases of a root. High half of an answer: the entries written.
#[unsafe(no_mangle)]
pub extern "C" fn desk_column_aliases(table: &[u8], source: &[u8], root: u32, out: &mut [u8]) -> u64
    ensures { AnswersC (root_rules table.now (length source.now) root) binding_row
        (column_aliases source.now table.now root) out.old result out.new }
{
    desk::desk_column_aliases(table, source, root, out)
}

// The table references of a root. High half of an answer: the entries written.
#[unsafe(no_mangle)]
pub extern "C" fn desk_table_refs(table: &[u8], source: &[u8], root: u32, out: &mut [u8]) -> u64
    ensures { AnswersC (root_rules table.now (length source.now) root) reference_row
        (table_refs source.now table.now root) out.old result out.new }
{
    desk::desk_table_refs(table, source, root, out)
}

// The records above a record of any kind, nearest first. High half of an answer: the entries written.
#[unsafe(no_mangle)]
pub extern "C" fn desk_records_above(
    table: &[u8],
    source: &[u8],
    record: u32,
    out: &mut [u8],
) -> u64
    ensures { AnswersC (number_rules table.now (length source.now) «record») above_row
        (above table.now «record») out.old result out.new }
{
    desk::desk_records_above(table, source, record, out)
}
