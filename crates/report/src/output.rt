// The answers to a frame as text.
ghost use Rattle.std.specs.Prelude.{◌≡◌, ◌+◌, ◌*◌, ◌/◌, ◌≤◌, length};
ghost use Rattle.table.specs.Rules.{verdict};
ghost use Rattle.records.specs.Table.{count};
ghost use Rattle.cursor.specs.CursorContext.{context_at};
ghost use Rattle.references.specs.References.{reference_bytes};
ghost use Rattle.statement.specs.Statement.{enclosing_at};
ghost use Rattle.lines.specs.Lines.{most_lines};
ghost use Rattle.print.specs.Printed.{letter_t, context_line, statement_line};
ghost use Rattle.report.specs.Output.{class_lines, opener_lines, answered_by, replied};
ghost use Rattle.print.specs.inner.Writing.{Put, printed_words, line_room};
ghost use Rattle.report.specs.inner.Room.{entry_count, most_references, text_room};

use brackets::bracket_matching::openers_left;
use cursor::cursor_context::cursor_context;
use lent::number::NUMBER_BYTES;
use lent::refusal::Refusal;
use lines::input::MOST_LINES;
use print::printed::{put_code, put_found, put_list, put_refusal, put_text};
use references::references::REFERENCE_BYTES;
use scope::scope::table_refs;
use scope::semantic_tokens::token_classes;
use statement::statement::enclosing_statement;

// How many numbers the entry of a class has, and that of an opener; how many numbers and ranges that of a reference has.
const CLASS_NUMBERS: usize = 3;

const OPENER_NUMBERS: usize = 1;

const REFERENCE_NUMBERS: usize = 1;

const REFERENCE_RANGES: usize = 6;

// How many bytes of room the lists have: the references as document 01 says, the others for an entry of each record.
const REFERENCE_ROOM: usize = 16384;

const CLASS_ROOM: usize = MOST_LINES * CLASS_NUMBERS * NUMBER_BYTES;

const OPENER_ROOM: usize = MOST_LINES * OPENER_NUMBERS * NUMBER_BYTES;

// How many references have room.
pub const MOST_REFERENCES: usize = REFERENCE_ROOM / REFERENCE_BYTES;

// The context of an admitted table, as a line.
fn put_context(out: &mut [u8], at: usize, table: &[u8], source: &[u8], offset: usize) -> usize
    requires { (Ok tt ≡ verdict table.now (length source.now) 0) × (at + line_room ≤ length out.old) }
    ensures { Put (context_line (context_at source.now table.now offset)) out.old at out.new result
        × (result ≤ at + line_room) }
{
    match cursor_context(table, source, offset) {
        Ok(c) => put_code(out, at, c),
        Err(_) => at,
    }
}

// The enclosing statement of an admitted table, as a line.
fn put_statement(out: &mut [u8], at: usize, table: &[u8], source: &[u8], offset: usize) -> usize
    requires { (Ok tt ≡ verdict table.now (length source.now) 0) × (at + line_room ≤ length out.old) }
    ensures { Put (statement_line (enclosing_at table.now offset)) out.old at out.new result × (result ≤ at + line_room) }
{
    match enclosing_statement(table, source, offset) {
        Ok(Some(n)) => put_found(out, at, n),
        Ok(None) => put_text(out, at, b"S -\n"),
        Err(_) => at,
    }
}

// How many entries a reply tells of: none where it is a refusal.
fn entry_count(reply: Result<u32, Refusal>) -> usize
    ensures { result ≡ entry_count reply }
{
    match reply {
        Ok(n) => n as usize,
        Err(_) => 0,
    }
}

// The classes of an admitted table, a line each.
fn put_classes(out: &mut [u8], at: usize, table: &[u8], source: &[u8]) -> usize
    requires { (Ok tt ≡ verdict table.now (length source.now) 0) × (count table.now ≤ most_lines) × (at + line_room * most_lines ≤ length out.old) }
    ensures { Put (class_lines source.now table.now) out.old at out.new result × (result ≤ at + line_room * most_lines) }
{
    let mut list = [0u8; CLASS_ROOM];
    let n = entry_count(token_classes(table, source, &mut list));
    put_list(out, at, b'K', &list, n, CLASS_NUMBERS, 0)
}

// The openers left of an admitted table, a line each.
fn put_openers(out: &mut [u8], at: usize, table: &[u8], source: &[u8]) -> usize
    requires { (Ok tt ≡ verdict table.now (length source.now) 0) × (count table.now ≤ most_lines) × (at + line_room * most_lines ≤ length out.old) }
    ensures { Put (opener_lines table.now) out.old at out.new result × (result ≤ at + line_room * most_lines) }
{
    let mut list = [0u8; OPENER_ROOM];
    let n = entry_count(openers_left(table, source, &mut list));
    put_list(out, at, b'O', &list, n, OPENER_NUMBERS, 0)
}

// All answers of an admitted table, whose n references stand in refs.
fn put_answer(
    out: &mut [u8],
    table: &[u8],
    source: &[u8],
    offset: usize,
    refs: &[u8],
    n: usize,
) -> usize
    requires { (Ok tt ≡ verdict table.now (length source.now) 0) × (count table.now ≤ most_lines)
        × (n * reference_bytes ≤ length refs.now) × (n ≤ most_references) × (text_room ≤ length out.old) }
    ensures { Put (answered_by source.now table.now offset (printed_words letter_t 1 13 refs.now 0 n))
        out.old 0 out.new result × (result ≤ text_room) }
{
    let first = put_context(out, 0, table, source, offset);
    let second = put_statement(out, first, table, source, offset);
    let third = put_list(
        out,
        second,
        b'T',
        refs,
        n,
        REFERENCE_NUMBERS,
        REFERENCE_RANGES,
    );
    let fourth = put_classes(out, third, table, source);
    let fifth = put_openers(out, fourth, table, source);
    put_text(out, fifth, b"E\n")
}

// What is printed for a table, a source and an offset.
pub fn put_reply(out: &mut [u8], table: &[u8], source: &[u8], offset: usize) -> usize
    requires { (count table.now ≤ most_lines) × (text_room ≤ length out.old) }
    ensures { Put (replied source.now table.now offset) out.old 0 out.new result × (result ≤ text_room) }
{
    let mut refs = [0u8; REFERENCE_ROOM];
    match table_refs(table, source, 0, &mut refs) {
        Err(refusal) => put_refusal(out, refusal.condition.number(), refusal.detail),
        Ok(n) => put_answer(out, table, source, offset, &refs, n as usize),
    }
}
