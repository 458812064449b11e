// A 32-bit number in four little-endian bytes: read and written.
ghost use Rattle.std.specs.Prelude.{◌≡◌, ◌+◌, ◌≤◌, ◌<◌, length};
ghost use Rattle.std.proofs.lemmas.List.Edits.{sets};
ghost use Rattle.lent.specs.Numbers.{number_bytes, word_limit, word, le4};

// How many bytes a number takes.
pub const NUMBER_BYTES: usize = 4;

// A number of four bytes is below this.
pub const WORD_LIMIT: usize = 4294967296;

// The little-endian number in the four bytes from `at` on.
pub fn word_at(t: &[u8], at: usize) -> usize
    requires { at + 4 ≤ length t.now }
    ensures { (result ≡ word t.now at) × (result < word_limit) }
{
    u32::from_le_bytes([t[at], t[at + 1], t[at + 2], t[at + 3]]) as usize
}

// Writes the four little-endian bytes of v.
pub fn put_number(out: &mut [u8], at: usize, v: usize)
    requires { at + number_bytes ≤ length out.old }
    ensures { out.new ≡ sets out.old at (le4 v) }
{
    out[at..at + NUMBER_BYTES].copy_from_slice(&v.to_le_bytes()[..NUMBER_BYTES]);
}
