// Every question by its name, over all that a question can be asked. Demands 1 and 2, and that every number fits 32 bits, are the contract of `ask`:
// stated once over all questions, and proved from the promises of the questions that it hands on to, and from nothing else of them.
#![tactic(auto)]

ghost use Rattle.demands.specs.Questions.{asked};
ghost use Rattle.demands.specs.Demand1.{Demand1};
ghost use Rattle.demands.specs.Demand2.{Demand2};
ghost use Rattle.demands.specs.Numbers.{Numbers};

use demands::Question;
use desk::at_cursor::{
    desk_column_aliases_at, desk_cursor_context, desk_cursor_contexts, desk_cursor_root,
    desk_enclosing_statement, desk_table_aliases_at, desk_table_refs_at, desk_with_names_at,
};
use desk::{
    desk_bracket_hint, desk_check, desk_column_aliases, desk_openers_left, desk_records_above,
    desk_table_aliases, desk_table_refs, desk_token_classes, desk_with_names,
};

// Asks one. Of the message, the offset, the offsets, the root, which may be any record that is named, and the buffer it uses what that question takes.
pub fn ask(
    question: Question,
    table: &[u8],
    source: &[u8],
    message: &[u8],
    offset: u32,
    offsets: &[u8],
    root: u32,
    out: &mut [u8],
) -> u64
    ensures demand1 { Demand1 question (asked table.now source.now message.now offset offsets.now root
        out.old) result out.new }
    ensures demand2 { Demand2 question (asked table.now source.now message.now offset offsets.now root
        out.old) result out.new }
    ensures numbers { Numbers question (asked table.now source.now message.now offset offsets.now root
        out.old) result }
{
    match question {
        Question::Check => desk_check(table, source),
        Question::TokenClasses => desk_token_classes(table, source, out),
        Question::OpenersLeft => desk_openers_left(table, source, out),
        Question::BracketHint => desk_bracket_hint(table, source, message),
        Question::WithNames => desk_with_names(table, source, root, out),
        Question::TableAliases => desk_table_aliases(table, source, root, out),
        Question::ColumnAliases => desk_column_aliases(table, source, root, out),
        Question::TableRefs => desk_table_refs(table, source, root, out),
        Question::CursorContext => desk_cursor_context(table, source, offset, out),
        Question::EnclosingStatement => desk_enclosing_statement(table, source, offset),
        Question::CursorRoot => desk_cursor_root(table, source, offset),
        Question::WithNamesAt => desk_with_names_at(table, source, offset, out),
        Question::TableAliasesAt => desk_table_aliases_at(table, source, offset, out),
        Question::ColumnAliasesAt => desk_column_aliases_at(table, source, offset, out),
        Question::TableRefsAt => desk_table_refs_at(table, source, offset, out),
        Question::RecordsAbove => desk_records_above(table, source, root, out),
        Question::CursorContexts => desk_cursor_contexts(table, source, offsets, out),
    }
}
