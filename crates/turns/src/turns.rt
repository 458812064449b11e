// What a token or a node makes of a reading, for whatever is sought of it.
ghost use Rattle.std.specs.Prelude.{◌≡◌, cond, ◌+◌, ◌≤◌, ◌<◌, unwrap_or, IfSome};
ghost use Rattle.tokens.specs.Function.{argued};
ghost use Rattle.tokens.specs.inner.Turns.{counts_for, enters_for, moved_to};

use records::kinds::{
    AGGREGATE_FUNCTION, COMMA, COMMENT, FUNCTION_CALL, OPENING_ROUND, WHITESPACE,
};
use tokens::sought::{Sought, Swept};

// Does a token of this kind and start count for what is sought?
pub fn counts(sought: Sought, offset: usize, kind: usize, start: usize) -> bool
    ensures { result ≡ counts_for sought offset kind start }
{
    match sought {
        Sought::LastToken => (start <= offset) & !((kind == WHITESPACE) | (kind == COMMENT)),
        Sought::ArgumentIndex => start < offset,
    }
}

// Is a node gone into for what is sought? An empty one never, and no function's call where commas are counted.
pub fn enters(sought: Sought, offset: usize, kind: usize, start: usize, end: usize) -> bool
    ensures { result ≡ enters_for sought offset kind start end }
{
    let is_call = (kind == FUNCTION_CALL) | (kind == AGGREGATE_FUNCTION);
    match sought {
        Sought::LastToken => !(end < start) & (start <= offset),
        Sought::ArgumentIndex => !(end < start) & !is_call,
    }
}

// What a token of this kind makes of the index, of which there is none before the first `(`.
fn argue(index: Option<usize>, kind: usize) -> Option<usize>
    requires { unwrap_or index 0 < 1152921504606846976 }
    ensures { (result ≡ argued index kind) × (unwrap_or result 0 ≤ unwrap_or index 0 + 1) }
{
    if kind == OPENING_ROUND {
        return Some(0);
    }
    if kind == COMMA {
        return Some(index? + 1);
    }
    index
}

// What token i of this kind and start makes of what was read, if it counts.
pub fn turn(sought: Sought, offset: usize, w: Swept, kind: usize, start: usize, i: usize) -> Swept
    requires { (unwrap_or w.arguments 0 < 1152921504606846976) × IfSome w.last (λ n. n ≤ i)
        × IfSome w.before (λ n. n ≤ i) }
    ensures { (result ≡ cond (counts_for sought offset kind start) (moved_to sought w kind i) w)
        × (unwrap_or result.arguments 0 ≤ unwrap_or w.arguments 0 + 1)
        × IfSome result.last (λ n. n ≤ i) × IfSome result.before (λ n. n ≤ i) }
{
    if !counts(sought, offset, kind, start) {
        return w;
    }
    match sought {
        Sought::LastToken => Swept {
            last: Some(i),
            before: w.last,
            ..w
        },
        Sought::ArgumentIndex => Swept {
            arguments: argue(w.arguments, kind),
            ..w
        },
    }
}
