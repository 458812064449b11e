// The class of a token: what colour it has, by its kind, its direct parent's kind and, for a bareword, the keywords.
ghost use Rattle.std.specs.Prelude.{◌≡◌, false};
ghost use Rattle.keywords.specs.inner.KeywordTable.{Lent};
ghost use Rattle.classes.specs.TokenClass.{by_parent, judged, bareword, class_of, number_of};

use keywords::keywords::{Starts, keyword_in};
use records::kinds::{
    BARE_WORD, COMMENT, HERE_DOC, LAST_TOKEN, NUMBER, PLUS, QUOTED_IDENTIFIER, STRING_TOKEN,
};
use text::text::text_of;

// The classes, with document 01's numbers.
#[derive(Clone, Copy, PartialEq, Eq)]
pub enum TokenClass {
    Keyword = 0,
    Function = 1,
    StringLiteral = 2,
    Number = 3,
    Comment = 4,
    Operator = 5,
    Variable = 6,
    TypeName = 7,
    Parameter = 8,
    Property = 9,
}

impl TokenClass {
    // Its number.
    pub fn number(self) -> usize
        ensures { result ≡ number_of self }
    {
        self as usize
    }
}

// The class of a Quoted: its parent's kind decides.
fn classify_identifier_by_parent(parent: usize) -> TokenClass
    ensures { result ≡ by_parent parent }
{
    match parent {
        43..=45 => TokenClass::Function,
        40..=42 => TokenClass::TypeName,
        33..=35 => TokenClass::Property,
        50..=51 => TokenClass::Property,
        _ => TokenClass::Variable,
    }
}

// The class of a bareword that is no keyword: its parent's kind alone decides.
fn classify_plain_word(parent: usize) -> Option<TokenClass>
    ensures { result ≡ judged false parent }
{
    match parent {
        40..=42 => Some(TokenClass::TypeName),
        43..=45 => Some(TokenClass::Function),
        33..=35 => Some(TokenClass::Property),
        50..=54 => Some(TokenClass::Property),
        49 => Some(TokenClass::Parameter),
        46..=48 => Some(TokenClass::Variable),
        36 => Some(TokenClass::Variable),
        55 => Some(TokenClass::Variable),
        _ => None,
    }
}

// The keyword table is lent: naming it here would copy it for each word.
fn classify_bareword(
    words: &[u8],
    starts: &Starts,
    text: &[u8],
    parent: usize,
) -> Option<TokenClass>
    requires { Lent words.now starts.now }
    ensures { result ≡ bareword text.now parent }
{
    match parent {
        40..=42 => Some(TokenClass::TypeName),
        49 => Some(TokenClass::Parameter),
        _ => {
            if keyword_in(words, starts, text) {
                Some(TokenClass::Keyword)
            } else {
                classify_plain_word(parent)
            }
        }
    }
}

// The class of a token, in the order of the Rust's tests.
pub fn classify_token(
    words: &[u8],
    starts: &Starts,
    kind: usize,
    start: usize,
    end: usize,
    source: &[u8],
    parent: usize,
) -> Option<TokenClass>
    requires { Lent words.now starts.now }
    ensures { result ≡ class_of source.now parent kind start «end» }
{
    match kind {
        COMMENT => Some(TokenClass::Comment),
        NUMBER => Some(TokenClass::Number),
        STRING_TOKEN..=HERE_DOC => Some(TokenClass::StringLiteral),
        PLUS..=LAST_TOKEN => Some(TokenClass::Operator),
        QUOTED_IDENTIFIER => Some(classify_identifier_by_parent(parent)),
        BARE_WORD => classify_bareword(words, starts, text_of(source, start, end), parent),
        _ => None,
    }
}
