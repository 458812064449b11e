// A frame's lines read: the source, the offset and the table.
ghost use Rattle.std.specs.Prelude.{◌≡◌, ◌*◌, ◌≤◌, length};
ghost use Rattle.std.proofs.lemmas.List.Edits.{sets};
ghost use Rattle.lines.specs.Lines.{lines, most_bytes};
ghost use Rattle.lines.specs.Frame.{pairs};
ghost use Rattle.lines.specs.inner.Reading.{table_room, ReadRecords, ReadFrame};

use lent::refusal::{Condition, Refusal, refused};
use lines::input::{
    Frame, MOST_LINES, OFFSET_DIGITS, RECORD_DIGITS, after_line, is_numbers, is_source, line_end,
    number, put_record, value,
};
use records::record::RECORD_BYTES;

// The places of the first record's line and of the last that there may be, counted from 1.
const RECORD_LINE: usize = 3;

const LAST_LINE: usize = RECORD_LINE + MOST_LINES - 1;

// Writes the source's bytes, two digits each.
fn read_source(digits: &[u8], source: &mut [u8])
    requires { length digits.now ≤ 2 * length source.old }
    ensures { source.new ≡ sets source.old 0 (pairs digits.now) }
{
    // by an index: of a slice that is written through a zip of its iter_mut a proof knows only the length
    for i in 0..digits.len() / 2 {
        source[i] = (value(digits[2 * i]) * 16 + value(digits[2 * i + 1])) as u8;
    }
}

// Reads the records' lines into the table.
fn read_records(text: &[u8], table: &mut [u8]) -> Result<usize, Refusal>
    requires { length table.old ≡ table_room }
    ensures { ReadRecords (lines text.now) table.new result }
{
    let mut rest = text;
    let mut n = 0;
    // While, not for: where a line ends is known when it is read.
    while !rest.is_empty() {
        let end = line_end(rest);
        let line = n + RECORD_LINE;
        if (LAST_LINE < line) | !is_numbers(rest, end, RECORD_DIGITS) {
            return refused(Condition::BadLine, line as u32);
        }
        put_record(table, RECORD_BYTES * n, &rest[..end]);
        rest = after_line(rest, end);
        n += 1;
    }
    Ok(n)
}

// Reads the source and the table into their buffers.
pub fn read_frame(input: &[u8], source: &mut [u8], table: &mut [u8]) -> Result<Frame, Refusal>
    requires { (length source.old ≡ most_bytes) × (length table.old ≡ table_room) }
    ensures { ReadFrame (lines input.now) source.new table.new result }
{
    let end = line_end(input);
    if !is_source(input, end) {
        return refused(Condition::BadLine, 1);
    }
    let rest = after_line(input, end);
    let offset_end = line_end(rest);
    if !is_numbers(rest, offset_end, OFFSET_DIGITS) {
        return refused(Condition::BadLine, 2);
    }
    let records = after_line(rest, offset_end);
    if records.is_empty() {
        return refused(Condition::BadLine, 3);
    }
    let n = read_records(records, table)?;
    read_source(&input[..end], source);
    Ok(Frame {
        bytes: end / 2,
        offset: number(&rest[..offset_end]),
        records: n,
    })
}
