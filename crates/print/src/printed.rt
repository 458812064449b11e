// The lines that glance prints, each with its letter, its numbers and its ranges.
ghost use Rattle.std.specs.Prelude.{[], ◌∷◌, ◌+◌, ◌*◌, ◌/◌, ◌≤◌, ◌<◌, length};
ghost use Rattle.lent.specs.Fit32.{Fit32};
ghost use Rattle.lent.specs.Numbers.{word_limit, number_bytes};
ghost use Rattle.contexts.specs.Context.{context_row};
ghost use Rattle.print.specs.Printed.{decimal, field, range, fields, ranges, printed, context_line, statement_line, refusal_line};
ghost use Rattle.print.specs.inner.Writing.{Put, words, printed_words, line_room};

use contexts::context::{CursorContext, code_of};
use lent::number::{NUMBER_BYTES, word_at};
use records::range::ABSENT;

// No line is longer: a letter, thirteen numbers of ten digits with a space before each, LF.
pub const LINE_ROOM: usize = 1 + 13 * 11 + 1;

// The place goes in and out of each function beside the text: a struct of both, whose methods take `&mut self`, would have to ensure of each that it
// keeps the name of the text that it borrows, besides what is written.

// Writes a byte and returns where the next goes. Each writer takes the buffer and the place, no struct of the two: of them a contract says in one equation
// what the buffer is at exit.
fn put_byte(out: &mut [u8], at: usize, b: u8) -> usize
    requires { at < length out.old }
    ensures { Put (b ∷ []) out.old at out.new result }
{
    out[at] = b;
    at + 1
}

// Writes some bytes.
pub fn put_text(out: &mut [u8], at: usize, text: &[u8]) -> usize
    requires { at + length text.now ≤ length out.old }
    ensures { Put text.now out.old at out.new result }
{
    let next = at + text.len();
    out[at..next].copy_from_slice(text);
    next
}

// Writes a number's digits: those of its tenth, and its last. Not by Display: there is no heap, and a lent buffer must say which bytes it got.
fn put_decimal(out: &mut [u8], at: usize, v: usize) -> usize
    requires { (v < word_limit) × (at + 10 ≤ length out.old) }
    ensures { Put (decimal v) out.old at out.new result }
{
    if v < 10 {
        return put_byte(out, at, (48 + v) as u8);
    }
    let next = put_decimal(out, at, v / 10);
    put_byte(out, next, (48 + v % 10) as u8)
}

// Writes a space and a number.
fn put_field(out: &mut [u8], at: usize, v: usize) -> usize
    requires { (v < word_limit) × (at + 11 ≤ length out.old) }
    ensures { Put (field v) out.old at out.new result × (result ≤ at + 11) }
{
    let next = put_byte(out, at, b' ');
    put_decimal(out, next, v)
}

// Writes a range, `- -` where it is absent.
fn put_range(out: &mut [u8], at: usize, start: usize, end: usize) -> usize
    requires { (start < word_limit) × («end» < word_limit) × (at + 22 ≤ length out.old) }
    ensures { Put (range start «end») out.old at out.new result × (result ≤ at + 22) }
{
    if (start == ABSENT) & (end == ABSENT) {
        return put_text(out, at, b" - -");
    }
    let next = put_field(out, at, start);
    put_field(out, next, end)
}

// Writes n numbers of a list, from its byte `from` on.
fn put_fields(out: &mut [u8], at: usize, list: &[u8], from: usize, n: usize) -> usize
    requires { (from + 4 * n ≤ length list.now) × (at + 11 * n ≤ length out.old) }
    ensures { Put (fields (words list.now from n)) out.old at out.new result × (result ≤ at + 11 * n) }
{
    let mut next = at;
    for i in 0..n {
        next = put_field(out, next, word_at(list, from + NUMBER_BYTES * i));
    }
    next
}

// Writes n ranges of a list, from its byte `from` on.
fn put_ranges(out: &mut [u8], at: usize, list: &[u8], from: usize, n: usize) -> usize
    requires { (from + 8 * n ≤ length list.now) × (at + 22 * n ≤ length out.old) }
    ensures { Put (ranges (words list.now from (n + n))) out.old at out.new result × (result ≤ at + 22 * n) }
{
    let mut next = at;
    for i in 0..n {
        let byte = from + 2 * NUMBER_BYTES * i;
        let start = word_at(list, byte);
        let end = word_at(list, byte + NUMBER_BYTES);
        next = put_range(out, next, start, end);
    }
    next
}

// Writes an entry of a list as a line: its letter, n numbers and m ranges.
fn put_line(
    out: &mut [u8],
    at: usize,
    letter: u8,
    list: &[u8],
    from: usize,
    n: usize,
    m: usize,
) -> usize
    requires { (n + (m + m) ≤ 13) × (from + number_bytes * (n + (m + m)) ≤ length list.now) × (at + line_room ≤ length out.old) }
    ensures { Put (printed letter n (words list.now from (n + (m + m)))) out.old at out.new result × (result ≤ at + line_room) }
{
    let first = put_byte(out, at, letter);
    let second = put_fields(out, first, list, from, n);
    let third = put_ranges(out, second, list, from + NUMBER_BYTES * n, m);
    put_byte(out, third, b'\n')
}

// Writes k entries of a list, a line each.
pub fn put_list(
    out: &mut [u8],
    at: usize,
    letter: u8,
    list: &[u8],
    k: usize,
    n: usize,
    m: usize,
) -> usize
    requires { (n + (m + m) ≤ 13) × (k * (number_bytes * (n + (m + m))) ≤ length list.now) × (at + line_room * k ≤ length out.old) }
    ensures { Put (printed_words letter n (n + (m + m)) list.now 0 k) out.old at out.new result × (result ≤ at + line_room * k) }
{
    let width = NUMBER_BYTES * (n + (m + m));
    let mut next = at;
    for i in 0..k {
        next = put_line(out, next, letter, list, width * i, n, m);
    }
    next
}

// Writes the line of a context.
pub fn put_code(out: &mut [u8], at: usize, c: CursorContext) -> usize
    requires { Fit32 (context_row c) × (at + line_room ≤ length out.old) }
    ensures { Put (context_line c) out.old at out.new result × (result ≤ at + line_room) }
{
    let k = code_of(c);
    let name = k.name;
    let first = put_byte(out, at, b'C');
    let second = put_field(out, first, k.number);
    let third = put_range(out, second, name.start, name.end);
    let fourth = put_field(out, third, k.index);
    put_byte(out, fourth, b'\n')
}

// Writes the line of a statement that was found.
pub fn put_found(out: &mut [u8], at: usize, found: u32) -> usize
    requires { at + line_room ≤ length out.old }
    ensures { Put (statement_line (Some found)) out.old at out.new result × (result ≤ at + line_room) }
{
    let first = put_byte(out, at, b'S');
    let second = put_field(out, first, found as usize);
    put_byte(out, second, b'\n')
}

// Writes the line of a refusal, of any number.
pub fn put_refusal(out: &mut [u8], number: u32, detail: u32) -> usize
    requires { line_room ≤ length out.old }
    ensures { Put (refusal_line number detail) out.old 0 out.new result × (result ≤ line_room) }
{
    let first = put_byte(out, 0, b'R');
    let second = put_field(out, first, number as usize);
    let third = put_field(out, second, detail as usize);
    put_byte(out, third, b'\n')
}
