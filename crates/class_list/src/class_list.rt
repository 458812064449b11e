// The list of every classed token of a table with its class.
ghost use Rattle.std.specs.Prelude.{◌≡◌, [], ◌+◌, ◌*◌, ◌≤◌, ◌<◌, length};
ghost use Rattle.records.specs.Table.{count};
ghost use Rattle.conditions.specs.Conditions.{most_records};
ghost use Rattle.lent.specs.Lists.{farthest, list_bytes, Written, Answers};
ghost use Rattle.keywords.specs.inner.KeywordTable.{Lent};
ghost use Rattle.class_list.specs.Classes.{class_row, entry_bytes, entry_of, classes_of};
ghost use Rattle.class_list.specs.inner.Carried.{Carries};

use classes::token_class::{TokenClass, classify_token};
use keywords::keywords::Starts;
use lent::list::put_entry;
use lent::number::NUMBER_BYTES;
use lent::refusal::{Condition, Refusal, refused};
use records::kinds::LAST_NODE;
use records::record::{count_of, end_at, kind_at, parent_at, start_at};

// An entry of the list: where a token stands, and the number of its class.
#[derive(Clone, Copy)]
pub struct ClassedToken {
    pub start: usize,
    pub end: usize,
    pub class: usize,
}

// How many bytes an entry takes: three numbers.
const ENTRY_BYTES: usize = 3 * NUMBER_BYTES;

// Writes the entry of a token, if it has a class, to byte `at` and returns the byte of the next entry.
fn put_class(
    out: &mut [u8],
    at: usize,
    class: Option<TokenClass>,
    start: usize,
    end: usize,
) -> usize
    requires { at < farthest }
    ensures { Written class_row (entry_of class start «end») out.old at out.new result × (result ≤ at + entry_bytes) }
{
    match class {
        None => at,
        Some(c) => put_entry(out, at, &[start, end, c.number()]),
    }
}

// Writes the classed tokens of a table from out's first byte on, record by record: a token's direct parent is the record whose number it carries. Returns how
// many bytes the list takes.
fn collect_tokens(
    words: &[u8],
    starts: &Starts,
    table: &[u8],
    source: &[u8],
    out: &mut [u8],
) -> usize
    requires { Lent words.now starts.now × (count table.now ≤ most_records) × Carries table.now }
    ensures { Written class_row (classes_of source.now table.now) out.old 0 out.new result
        × (result ≤ entry_bytes * count table.now) }
{
    let m = count_of(table);
    let mut next = 0;
    let mut i = 0;
    // While, not for: by `for` the loop over a word's letters below has too few registers, and the class of a token misses its bar.
    while i < m {
        let kind = kind_at(table, i);
        if kind <= LAST_NODE {
            i += 1;
        } else {
            let start = start_at(table, i);
            let end = end_at(table, i);
            let above = parent_at(table, i);
            let parent = kind_at(table, above);
            let c = classify_token(words, starts, kind, start, end, source, parent);
            next = put_class(out, next, c, start, end);
            i += 1;
        }
    }
    next
}

// How many bytes the list takes.
fn class_bytes(words: &[u8], starts: &Starts, table: &[u8], source: &[u8]) -> usize
    requires { Lent words.now starts.now × (count table.now ≤ most_records) × Carries table.now }
    ensures { (result ≡ length (list_bytes class_row (classes_of source.now table.now)))
        × (result ≤ entry_bytes * count table.now) }
{
    let mut none = [0u8; 0];
    collect_tokens(words, starts, table, source, &mut none)
}

// Lists the classes of a table that is admitted. It counts first only where there may be too little room.
pub fn list_classes(
    words: &[u8],
    starts: &Starts,
    table: &[u8],
    source: &[u8],
    out: &mut [u8],
) -> Result<u32, Refusal>
    requires { Lent words.now starts.now × (count table.now ≤ most_records) × Carries table.now }
    ensures { Answers [] class_row
        (classes_of source.now table.now) out.old result out.new }
{
    let room = out.len();
    if room < ENTRY_BYTES * count_of(table) {
        let needed = class_bytes(words, starts, table, source);
        if room < needed {
            return refused(Condition::NoRoom, (needed / ENTRY_BYTES) as u32);
        }
    }
    let size = collect_tokens(words, starts, table, source, out);
    Ok((size / ENTRY_BYTES) as u32)
}
