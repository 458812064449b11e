// The name of a function's call, before its opening parenthesis.
ghost use Rattle.std.specs.Prelude.{◌≡◌, ℕ, ◌<◌};
ghost use Rattle.records.specs.Table.{count, records};
ghost use Rattle.forest.specs.Forest.{kids};
ghost use Rattle.tokens.specs.Function.{bare_word_in, function_name};
ghost use Rattle.tokens.specs.inner.Turns.{naming_at};

use forest::stretch::{child_from, rest_from};
use records::kinds::{BARE_WORD, IDENTIFIER, OPENING_ROUND};
use records::range::Range;
use records::record::{count_of, kind_at};
use tokens::last_token::token_at;

// The first direct BareWord below the first record of the stretch s.
fn first_bare_word(s: &[u8]) -> Option<Range>
    ensures { (base : ℕ) → result ≡ bare_word_in (kids (records base s.now)) }
{
    let m = count_of(s);
    if m == 0 {
        return None;
    }
    let mut i = child_from(s, 1);
    // While, not for: the next child begins where the records of this one end.
    while i < m {
        if kind_at(s, i) == BARE_WORD {
            return Some(token_at(s, i));
        }
        i = child_from(s, i + 1);
    }
    None
}

// What a child says of the function's name: it is this, there is none, or nothing, and the next child is asked.
fn name_at(s: &[u8], i: usize) -> Option<Option<Range>>
    requires { i < count s.now }
    ensures { (base : ℕ) → result ≡ naming_at s.now base i }
{
    let kind = kind_at(s, i);
    if kind == BARE_WORD {
        return Some(Some(token_at(s, i)));
    }
    if kind == OPENING_ROUND {
        return Some(None);
    }
    if kind == IDENTIFIER {
        return Some(Some(first_bare_word(rest_from(s, i))?));
    }
    None
}

// The name of a function's call, before its opening parenthesis.
pub fn extract_function_name(s: &[u8]) -> Option<Range>
    ensures { (base : ℕ) → result ≡ function_name (kids (records base s.now)) }
{
    let m = count_of(s);
    if m == 0 {
        return None;
    }
    let mut i = child_from(s, 1);
    // While, not for: the next child begins where the records of this one end.
    while i < m {
        if let Some(name) = name_at(s, i) {
            return name;
        }
        i = child_from(s, i + 1);
    }
    None
}
