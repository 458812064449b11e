// The C boundary: every question over numbers and byte slices, a slice being a pointer and a length. The reply is one number:
// its low 32 bits are the refusal's number, 0 where the question is answered, and its high 32 bits the detail or the answer.
#![tactic(auto)]

pub mod at_cursor;

ghost use Rattle.std.specs.Prelude.{◌≡◌, length};
ghost use Rattle.lent.specs.Lists.{reply};
ghost use Rattle.table.specs.Rules.{rules, root_rules, number_rules, verdict};
ghost use Rattle.forest.specs.Above.{above};
ghost use Rattle.above.specs.Above.{above_row};
ghost use Rattle.class_list.specs.Classes.{class_row as class_row, classes_of};
ghost use Rattle.brackets.specs.Brackets.{opener_row as opener_row, stack_left, openers_left, hint_of};
ghost use Rattle.names.specs.Bindings.{binding_row};
ghost use Rattle.references.specs.References.{reference_row};
ghost use Rattle.lists.specs.Scope.{with_names, table_aliases, column_aliases, table_refs};
ghost use Rattle.replies.specs.Reply.{verdict_reply, record_reply, AnswersC};

use above::above::records_above;
use brackets::bracket_matching::openers_left;
use hint::hint::bracket_hint;
use replies::reply::reply_number;
use scope::scope::{column_aliases, table_aliases, table_refs, with_names};
use scope::semantic_tokens::token_classes;
use table::check::check;

// The layout of records and entries, by its number: a host asks for it by its name, so that one of another layout does not link.
pub fn desk_layout_3() -> u64
    ensures { result ≡ 3 }
{
    3
}

// Is the table admitted? High half of an answer: 0.
pub fn desk_check(table: &[u8], source: &[u8]) -> u64
    ensures { result ≡ verdict_reply (verdict table.now (length source.now) 0) }
{
    reply_number(check(table, source))
}

// The classed tokens. High half of an answer: the entries written.
pub fn desk_token_classes(table: &[u8], source: &[u8], out: &mut [u8]) -> u64
    ensures { AnswersC (rules table.now (length source.now) 0) class_row
        (classes_of source.now table.now) out.old result out.new }
{
    reply_number(token_classes(table, source, out))
}

// The openers left. High half of an answer: the entries written.
pub fn desk_openers_left(table: &[u8], source: &[u8], out: &mut [u8]) -> u64
    ensures { AnswersC (rules table.now (length source.now) 0) opener_row
        (openers_left table.now) out.old result out.new }
{
    reply_number(openers_left(table, source, out))
}

// The opener that a message speaks of. High half of an answer: its record, or 4294967295 for none.
pub fn desk_bracket_hint(table: &[u8], source: &[u8], message: &[u8]) -> u64
    ensures { result ≡ record_reply (reply (verdict table.now (length source.now) (length message.now))
        (hint_of message.now (stack_left table.now))) }
{
    reply_number(bracket_hint(table, source, message))
}

// The WITH names of a root. High half of an answer: the entries written.
pub fn desk_with_names(table: &[u8], source: &[u8], root: u32, out: &mut [u8]) -> u64
    ensures { AnswersC (root_rules table.now (length source.now) root) binding_row
        (with_names source.now table.now root) out.old result out.new }
{
    reply_number(with_names(table, source, root as usize, out))
}

// The table aliases of a root. High half of an answer: the entries written.
pub fn desk_table_aliases(table: &[u8], source: &[u8], root: u32, out: &mut [u8]) -> u64
    ensures { AnswersC (root_rules table.now (length source.now) root) binding_row
        (table_aliases source.now table.now root) out.old result out.new }
{
    reply_number(table_aliases(table, source, root as usize, out))
}

// The column aliases of a root. High half of an answer: the entries written.
pub fn desk_column_aliases(table: &[u8], source: &[u8], root: u32, out: &mut [u8]) -> u64
    ensures { AnswersC (root_rules table.now (length source.now) root) binding_row
        (column_aliases source.now table.now root) out.old result out.new }
{
    reply_number(column_aliases(table, source, root as usize, out))
}

// The table references of a root. High half of an answer: the entries written.
pub fn desk_table_refs(table: &[u8], source: &[u8], root: u32, out: &mut [u8]) -> u64
    ensures { AnswersC (root_rules table.now (length source.now) root) reference_row
        (table_refs source.now table.now root) out.old result out.new }
{
    reply_number(table_refs(table, source, root as usize, out))
}

// The records above a record of any kind, nearest first. High half of an answer: the entries written.
pub fn desk_records_above(table: &[u8], source: &[u8], record: u32, out: &mut [u8]) -> u64
    ensures { AnswersC (number_rules table.now (length source.now) «record») above_row
        (above table.now «record») out.old result out.new }
{
    reply_number(records_above(table, source, record as usize, out))
}
