// A binding, written as an entry.
ghost use Rattle.std.specs.Prelude.{[], ◌∷◌, ◌+◌, ◌≤◌, ◌<◌};
ghost use Rattle.forest.specs.Parts.{head, below};
ghost use Rattle.lent.specs.Lists.{farthest, Written};
ghost use Rattle.names.specs.Names.{with_item, alias_in};
ghost use Rattle.names.specs.Bindings.{entry, binding_bytes, binding_row};

use crate::names::{NameBinding, extract_alias_name, extract_cte};
use forest::part::Part;
use lent::list::put_entry;
use lent::number::NUMBER_BYTES;

// How many bytes the entry of a binding takes: six numbers.
pub const BINDING_BYTES: usize = 6 * NUMBER_BYTES;

// Writes a binding's entry from byte `at` on, if there is one, and returns where the next entry goes.
fn put_bound(b: Option<NameBinding>, out: &mut [u8], at: usize) -> usize
    requires { at < farthest }
    ensures { Written binding_row (entry b) out.old at out.new result × (result ≤ at + binding_bytes) }
{
    match b {
        None => at,
        Some(b) => put_binding(b, out, at),
    }
}

// Writes a binding's entry from byte `at` on, and returns where the next entry goes.
fn put_binding(b: NameBinding, out: &mut [u8], at: usize) -> usize
    requires { at < farthest }
    ensures { Written binding_row (b ∷ []) out.old at out.new result × (result ≤ at + binding_bytes) }
{
    let row = [
        b.token.start,
        b.token.end,
        b.name.start,
        b.name.end,
        b.definition.start,
        b.definition.end,
    ];
    put_entry(out, at, &row)
}

// Writes what a WITH item, the first record of the part, binds.
pub fn put_cte(part: &Part, source: &[u8], out: &mut [u8], at: usize) -> usize
    requires { at < farthest }
    ensures { Written binding_row (entry (with_item source.now (head part.now) (below part.now)))
        out.old at out.new result × (result ≤ at + binding_bytes) }
{
    let bound = extract_cte(part, source);
    put_bound(bound, out, at)
}

// Writes what an alias, the first record of the part, binds.
pub fn put_alias_name(part: &Part, source: &[u8], out: &mut [u8], at: usize) -> usize
    requires { at < farthest }
    ensures { Written binding_row (entry (alias_in source.now (head part.now) (below part.now)))
        out.old at out.new result × (result ≤ at + binding_bytes) }
{
    let bound = extract_alias_name(part, source);
    put_bound(bound, out, at)
}
