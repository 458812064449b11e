// The rooms that everything at a cursor takes: how many entries each list has, and whether the buffers are long enough.
ghost use Rattle.std.specs.Prelude.{◌≡◌};
ghost use Rattle.lent.specs.Verdicts.{first};
ghost use Rattle.rooms.specs.inner.Counted.{rooms_for};

use lent::number::NUMBER_BYTES;
use lent::refusal::{Condition, Refusal, refused};
use names::bindings::BINDING_BYTES;
use references::references::REFERENCE_BYTES;

// How many entries each of the four lists has.
#[derive(Clone, Copy)]
pub struct Counts {
    pub names: u32,
    pub aliases: u32,
    pub columns: u32,
    pub refs: u32,
}

// How many bytes the entry takes: the context's four numbers, the root, and the four counts.
const EVERYTHING_BYTES: usize = 9 * NUMBER_BYTES;

// Is there room in buffers of these lengths? Refused for the first that has none.
pub fn room_for(c: Counts, e: usize, w: usize, a: usize, b: usize, r: usize) -> Result<(), Refusal>
    ensures { result ≡ first (rooms_for c e w a b r) }
{
    if e < EVERYTHING_BYTES {
        return refused(Condition::NoRoom, 1);
    }
    if w < BINDING_BYTES * (c.names as usize) {
        return refused(Condition::NoRoom, c.names);
    }
    if a < BINDING_BYTES * (c.aliases as usize) {
        return refused(Condition::NoRoom, c.aliases);
    }
    if b < BINDING_BYTES * (c.columns as usize) {
        return refused(Condition::NoRoom, c.columns);
    }
    if r < REFERENCE_BYTES * (c.refs as usize) {
        return refused(Condition::NoRoom, c.refs);
    }
    Ok(())
}
