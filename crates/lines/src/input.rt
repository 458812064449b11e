// A frame's lines, one by one: where it ends, what form it has, and what its hexadecimal digits say.
ghost use Rattle.std.specs.Prelude.{◌≡◌, ◌+◌, ◌≤◌, ◌<◌, length, drop};
ghost use Rattle.lent.specs.Lists.{put};
ghost use Rattle.lines.specs.Lines.{is_digit, value, all_digits, is_hex, is_source, is_numbers};
ghost use Rattle.lines.specs.Frame.{hex_number, fields_of};
ghost use Rattle.lines.specs.inner.Reading.{line_span, line_to, table_room};

use lent::list::put_entry;
use records::record::RECORD_BYTES;
use text::text::text_of;

// What ends a line.
const LF: u8 = 10;

// The most bytes of a source, and the most records.
pub const MOST_BYTES: usize = 4096;

pub const MOST_LINES: usize = 1024;

// How many digits the line of an offset has, and that of a record.
pub const OFFSET_DIGITS: usize = 8;

pub const RECORD_DIGITS: usize = 28;

// How many bytes of room the table of a frame has.
pub const TABLE_ROOM: usize = MOST_LINES * RECORD_BYTES;

// A frame that is read: how many bytes its source has, the offset, and how many records.
#[derive(Clone, Copy)]
pub struct Frame {
    pub bytes: usize,
    pub offset: usize,
    pub records: usize,
}

// The value of a digit; of any other byte 0.
pub fn value(b: u8) -> usize
    ensures { (result ≡ value b) × (result < 16) }
{
    match b {
        b'0'..=b'9' => usize::from(b - b'0'),
        b'a'..=b'f' => usize::from(b - b'a') + 10,
        _ => 0,
    }
}

// Is the byte a digit, lower case?
fn is_digit(b: u8) -> bool
    ensures { result ≡ is_digit b }
{
    (b'0'..=b'9').contains(&b) | (b'a'..=b'f').contains(&b)
}

// Are all bytes digits?
fn all_digits(bytes: &[u8]) -> bool
    ensures { result ≡ all_digits bytes.now }
{
    bytes.iter().all(|b| is_digit(*b))
}

// Where the first line ends: at its LF, or with the text.
pub fn line_end(text: &[u8]) -> usize
    ensures { (result ≡ line_span text.now) × (result ≤ length text.now) }
{
    text.iter().position(|b| *b == LF).unwrap_or(text.len())
}

// The text behind a line that ends at byte end.
pub fn after_line(text: &[u8], end: usize) -> &[u8]
    requires { end ≤ length text.now }
    ensures { result.now ≡ drop (end + 1) text.now }
{
    text.get(end + 1..).unwrap_or(&[])
}

// The text's first line is digits alone, and is ended.
fn is_hex(text: &[u8], end: usize) -> bool
    requires { end ≤ length text.now }
    ensures { result ≡ is_hex (line_to text.now end) }
{
    (end < text.len()) & all_digits(&text[..end])
}

// The text's first line is a source: pairs of digits, not too many.
pub fn is_source(text: &[u8], end: usize) -> bool
    requires { end ≤ length text.now }
    ensures { result ≡ is_source (line_to text.now end) }
{
    is_hex(text, end) & (end % 2 == 0) & (end <= 2 * MOST_BYTES)
}

// The text's first line is n digits.
pub fn is_numbers(text: &[u8], end: usize, n: usize) -> bool
    requires { end ≤ length text.now }
    ensures { result ≡ is_numbers n (line_to text.now end) }
{
    is_hex(text, end) & (end == n)
}

// The number that digits spell, the most significant first.
pub fn number(digits: &[u8]) -> usize
    requires { length digits.now ≤ 8 }
    ensures { result ≡ hex_number digits.now }
{
    let mut v = 0;
    for d in digits {
        v = v * 16 + value(*d);
    }
    v
}

// Writes a record from byte `at` of the table on.
pub fn put_record(table: &mut [u8], at: usize, digits: &[u8])
    requires { at ≤ table_room }
    ensures { table.new ≡ put table.old at (fields_of digits.now) }
{
    let kind = number(text_of(digits, 0, 2));
    let depth = number(text_of(digits, 2, 4));
    let start = number(text_of(digits, 4, 12));
    let end = number(text_of(digits, 12, 20));
    let parent = number(text_of(digits, 20, 28));
    let entry = [kind, depth, start, end, parent];
    put_entry(table, at, &entry);
}
