// A list of entries in a lent buffer: an entry is some 32-bit little-endian numbers.
ghost use Rattle.std.specs.Prelude.{◌≡◌, ℕ, List, [], ◌++◌, ◌+◌, ◌*◌, ◌/◌, ◌≤◌, ◌<◌, length, take, drop};
ghost use Rattle.lent.specs.Numbers.{number_bytes, word_limit};
ghost use Rattle.lent.specs.Lists.{Answers, Walks, farthest, list_bytes, plain, put};

use crate::number::{NUMBER_BYTES, put_number};
use crate::refusal::{Condition, Refusal, refused};

// How many bytes of a list are kept aside while it is walked: a list that fits is walked once, and one that does not a second time.
const KEPT_BYTES: usize = 3072;

// Writes an entry's numbers from byte `at` on, if out has room for all of them there, and returns where the next entry goes.
pub fn put_entry(out: &mut [u8], at: usize, entry: &[usize]) -> usize
    requires { (at < farthest) × (length entry.now < 1024) }
    ensures { (out.new ≡ put out.old at entry.now)
        × (result ≡ at + number_bytes * length entry.now) }
{
    let n = entry.len();
    let next = at + NUMBER_BYTES * n;
    if out.len() < next {
        return next;
    }
    for (i, v) in entry.iter().enumerate() {
        put_number(out, at + NUMBER_BYTES * i, *v);
    }
    next
}

// Copies the first n bytes of `from` to the front of out.
pub fn copy_front(out: &mut [u8], from: &[u8], n: usize)
    requires { (n ≤ length out.old) × (n ≤ length from.now) }
    ensures { out.new ≡ take n from.now ++ drop n out.old }
{
    out[..n].copy_from_slice(&from[..n]);
}

// The answer of a question for a list whose entries are this wide, by a walk that writes them to a buffer and returns how many bytes they take: walked
// into bytes that are kept aside, and copied from there where they held all of it; a longer list is walked again where it has room.
pub fn list_walked<W: Fn(&mut [u8]) -> usize>(
    walk: W,
    width: usize,
    out: &mut [u8],
) -> Result<u32, Refusal>
    requires callable { W.IsAlwaysCallable walk }
    requires wide { 0 < width }
    requires counted { (p : _) (n : _) (q : _) → W.post walk p n q → n / width < word_limit }
    ensures { (es : List (List ℕ)) → Walks W.Fn walk es → length (list_bytes plain es) ≡ length es * width
        → Answers [] plain es out.old result out.new }
{
    let mut kept = [0u8; KEPT_BYTES];
    let size = walk(&mut kept);
    let entries = (size / width) as u32;
    if out.len() < size {
        return refused(Condition::NoRoom, entries);
    }
    if size <= KEPT_BYTES {
        copy_front(out, &kept, size);
        return Ok(entries);
    }
    walk(out);
    Ok(entries)
}
