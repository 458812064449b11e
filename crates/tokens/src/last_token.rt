// What the last token says: dotted, ON, USING.
ghost use Rattle.std.specs.Prelude.{◌≡◌, [], ◌∷◌, ◌<◌};
ghost use Rattle.text.specs.Text.{same};
ghost use Rattle.records.specs.Table.{count};
ghost use Rattle.tokens.specs.LastToken.{is_text, is_word, dotted, is_join_word};
ghost use Rattle.tokens.specs.inner.Turns.{name_at};

use records::range::Range;
use records::record::{end_at, start_at};
use text::text::{says, text_of};

// The last token of a reading and the one before it, each by its range, where there is one.
#[derive(Clone, Copy)]
pub struct LastTwo {
    pub last: Option<Range>,
    pub before: Option<Range>,
}

// The range of record i.
pub fn token_at(s: &[u8], i: usize) -> Range
    requires { i < count s.now }
    ensures { result ≡ name_at s.now i }
{
    Range {
        start: start_at(s, i),
        end: end_at(s, i),
    }
}

// The text is this one byte.
pub fn is_byte(t: &[u8], b: u8) -> bool
    ensures { result ≡ same t.now (b ∷ []) }
{
    t == [b].as_slice()
}

// There is a token, and its text is this one sign.
fn is_sign(source: &[u8], token: Option<Range>, sign: u8) -> bool
    ensures { result ≡ is_text (sign ∷ []) source.now token }
{
    match token {
        None => false,
        Some(range) => is_byte(text_of(source, range.start, range.end), sign),
    }
}

// There is a token, and its text is the upper-case word in any ASCII case.
fn is_word(source: &[u8], token: Option<Range>, word: &[u8]) -> bool
    ensures { result ≡ is_word word.now source.now token }
{
    match token {
        None => false,
        Some(range) => says(word, text_of(source, range.start, range.end)),
    }
}

// The name before a dot, where the last token is one.
pub fn find_identifier_before_dot(source: &[u8], two: LastTwo) -> Option<Range>
    ensures { result ≡ dotted source.now two }
{
    let last = two.last;
    let before = two.before;
    if is_sign(source, last, b'.') {
        before
    } else {
        None
    }
}

// Is the last token ON or USING?
pub fn is_join_word(source: &[u8], two: LastTwo) -> bool
    ensures { result ≡ is_join_word source.now two }
{
    let last = two.last;
    if is_word(source, last, b"ON") {
        return true;
    }
    is_word(source, last, b"USING")
}
