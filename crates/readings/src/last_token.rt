// The last token at an offset.
ghost use Rattle.std.specs.Prelude.{◌≡◌, ℕ, ◌<◌, IfSome};
ghost use Rattle.records.specs.Table.{count, records};
ghost use Rattle.forest.specs.Forest.{kids};
ghost use Rattle.forest.specs.inner.Ordered.{Ordered};
ghost use Rattle.tokens.specs.LastToken.{last_two};
ghost use Rattle.tokens.specs.inner.Turns.{token_of};

use crate::sweep::sweep;
use records::range::Range;
use tokens::last_token::{LastTwo, token_at};
use tokens::sought::Sought;

// The token of this number, if there is one.
fn token_of(s: &[u8], i: Option<usize>) -> Option<Range>
    requires { IfSome i (λ n. n < count s.now) }
    ensures { result ≡ token_of s.now i }
{
    Some(token_at(s, i?))
}

// The last token at or before the offset below the first record of the stretch s, and the one before it.
pub fn token_before_offset(s: &[u8], offset: usize) -> LastTwo
    requires { Ordered s.now }
    ensures { (base : ℕ) → result ≡ last_two offset (kids (records base s.now)) }
{
    let swept = sweep(s, offset, Sought::LastToken);
    LastTwo {
        last: token_of(s, swept.last),
        before: token_of(s, swept.before),
    }
}
