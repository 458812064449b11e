// The index of a function's argument.
ghost use Rattle.std.specs.Prelude.{◌≡◌, ℕ};
ghost use Rattle.records.specs.Table.{records};
ghost use Rattle.forest.specs.Forest.{kids};
ghost use Rattle.forest.specs.inner.Ordered.{Ordered};
ghost use Rattle.tokens.specs.Function.{argument_index};

use crate::sweep::sweep;
use tokens::sought::Sought;

// The index of the argument that the offset is in, below the first record of the stretch s.
pub fn count_commas_before(s: &[u8], offset: usize) -> usize
    requires { Ordered s.now }
    ensures { (base : ℕ) → result ≡ argument_index offset (kids (records base s.now)) }
{
    let swept = sweep(s, offset, Sought::ArgumentIndex);
    swept.arguments.unwrap_or(0)
}
