// A name with and without its quotes.
ghost use Rattle.std.specs.Prelude.{◌≡◌};
ghost use Rattle.quotes.specs.Quotes.{byte_at, is_mark, unquoted, name_of, absent_name};

use records::kinds::QUOTED_IDENTIFIER;
use records::range::{Range, no_range};
use records::record::Rec;

// A name's two ranges: with its quotes, and without.
#[derive(Clone, Copy)]
pub struct NameRanges {
    pub outer: Range,
    pub inner: Range,
}

// Byte i of the source: no span can lead outside it.
fn byte_at(source: &[u8], i: usize) -> u8
    ensures { result ≡ byte_at source.now i }
{
    source.get(i).copied().unwrap_or(0)
}

// A backtick or a double quote.
fn is_mark(b: u8) -> bool
    ensures { result ≡ is_mark b }
{
    matches!(b, b'`' | b'"')
}

// Strips a matching pair of backticks or double quotes.
fn unquote(source: &[u8], start: usize, end: usize) -> Range
    ensures { result ≡ unquoted source.now start end }
{
    if end.saturating_sub(start) < 2 {
        return Range { start, end };
    }
    let mark = byte_at(source, start);
    let last = byte_at(source, end - 1);
    if is_mark(mark) & (last == mark) {
        Range {
            start: start + 1,
            end: end - 1,
        }
    } else {
        Range { start, end }
    }
}

// The name that a token gives: a Quoted loses its quotes in the inner range.
pub fn name_of(source: &[u8], t: Rec) -> NameRanges
    ensures { result ≡ name_of source.now t }
{
    let outer = Range::from(t);
    if t.kind != QUOTED_IDENTIFIER {
        return NameRanges {
            outer,
            inner: outer,
        };
    }
    let inner = unquote(source, t.start, t.end);
    NameRanges { outer, inner }
}

// The name where there is none.
pub fn no_name() -> NameRanges
    ensures { result ≡ absent_name }
{
    NameRanges {
        outer: no_range(),
        inner: no_range(),
    }
}
