// Replays a stored list of frames, each with what the Rust answers to it in glance's words, and says how many agree. A stored frame is two
// numbers of eight hexadecimal digits, the bytes of the input and those of the answer, then LF, the input and the answer.
#![tactic(auto)]

use frame::stream::read_full;
use frame::{TEXT_ROOM, glance};
use lines::input::number;
use std::io;
use std::io::Read;

// How many bytes stand before a frame's input.
const HEAD: usize = 17;

// The most bytes of a stored input.
const ROOM: usize = 65536;

// What is found at the next frame of the list.
#[derive(Clone, Copy)]
enum Outcome {
    Agrees,
    Differs,
    // the list breaks off, or its numbers are too large
    Broken,
    End,
}

// Compares what is printed for an input with what is stored for it.
fn compare(input: &[u8], stored: &[u8]) -> Outcome {
    let mut text = [0u8; TEXT_ROOM];
    let k = glance(input, &mut text);
    if &text[..k] == stored {
        return Outcome::Agrees;
    }
    Outcome::Differs
}

// Reads an input of n bytes and an answer of m into their buffers.
fn read_stored<R: Read>(
    list: &mut R,
    n: usize,
    m: usize,
    input: &mut [u8],
    stored: &mut [u8],
) -> io::Result<Outcome> {
    if input.len() < n {
        return Ok(Outcome::Broken);
    }
    if stored.len() < m {
        return Ok(Outcome::Broken);
    }
    if read_full(list, &mut input[..n])? != n {
        return Ok(Outcome::Broken);
    }
    if read_full(list, &mut stored[..m])? != m {
        return Ok(Outcome::Broken);
    }
    Ok(compare(&input[..n], &stored[..m]))
}

// Reads the next stored frame and compares it.
fn next_frame<R: Read>(list: &mut R) -> io::Result<Outcome> {
    let mut head = [0u8; HEAD];
    let got = read_full(list, &mut head)?;
    if got == 0 {
        return Ok(Outcome::End);
    }
    if got < HEAD {
        return Ok(Outcome::Broken);
    }
    let n = number(&head[..8]);
    let m = number(&head[8..16]);
    let mut input = [0u8; ROOM];
    let mut stored = [0u8; TEXT_ROOM];
    read_stored(list, n, m, &mut input, &mut stored)
}

// Replays the list on standard input.
fn main(rt: HostRuntime) -> io::Result<()> {
    let mut list = rt.reader();
    let mut frames: u64 = 0;
    let mut agreed: u64 = 0;
    // not a for over a range: the count is printed behind the loop
    while frames < u64::MAX {
        match next_frame(&mut list)? {
            Outcome::End => break,
            Outcome::Broken => {
                println!(rt; "the list breaks off at frame {frames}")?;
                break;
            }
            Outcome::Differs => println!(rt; "another answer at frame {frames}")?,
            Outcome::Agrees => agreed += 1,
        }
        frames += 1;
    }
    println!(rt; "frames {frames}")?;
    println!(rt; "agree {agreed}")
}
