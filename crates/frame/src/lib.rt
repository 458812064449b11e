// glance's whole work, from input bytes to output bytes: what the program prints is proved here.
#![tactic(auto)]

pub mod stream;

ghost use Rattle.std.specs.Prelude.{◌≡◌, ◌++◌, ◌≤◌, length, drop};
ghost use Rattle.frame.specs.Glance.{glanced};

use lines::input::{MOST_BYTES, MOST_LINES, OFFSET_DIGITS, RECORD_DIGITS, TABLE_ROOM};
use print::printed::{LINE_ROOM, put_refusal};
use reader::read::read_frame;
use records::record::RECORD_BYTES;
use report::output::{MOST_REFERENCES, put_reply};

// How many bytes of room every answer has: a line for the context, the statement and the end, and one for each reference, token and opener.
pub const TEXT_ROOM: usize = LINE_ROOM * (3 + MOST_REFERENCES + 2 * MOST_LINES);

// How many bytes of an input matter (specs/Enough.antt): a longer one has a fault within them. The source's line, the offset's, a line for
// each record, and one byte more.
pub const INPUT_ROOM: usize = (2 * MOST_BYTES + 1)
    + (OFFSET_DIGITS + 1)
    + MOST_LINES * (RECORD_DIGITS + 1)
    + 1;

// Reads a frame, asks the questions and writes what glance prints, from out's first byte on. Returns how many bytes that is.
pub fn glance(input: &[u8], out: &mut [u8; TEXT_ROOM]) -> usize
    ensures { (result ≡ length (glanced input.now))
        × (out.new ≡ glanced input.now ++ drop (length (glanced input.now)) out.old)
        × (result ≤ length out.new) }
{
    let mut source = [0u8; MOST_BYTES];
    let mut table = [0u8; TABLE_ROOM];
    match read_frame(input, &mut source, &mut table) {
        Err(refusal) => put_refusal(out, refusal.condition.number(), refusal.detail),
        Ok(frame) => {
            let end = RECORD_BYTES * frame.records;
            put_reply(out, &table[..end], &source[..frame.bytes], frame.offset)
        }
    }
}
