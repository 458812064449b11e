// The statement that encloses an offset.
ghost use Rattle.std.specs.Prelude.{◌≡◌, ◌≤◌, ◌<◌, length};
ghost use Rattle.lent.specs.Lists.{reply};
ghost use Rattle.records.specs.Table.{count};
ghost use Rattle.lent.specs.Numbers.{word_limit};
ghost use Rattle.table.specs.Rules.{verdict};
ghost use Rattle.records.specs.Ranges.{spans};
ghost use Rattle.statement.specs.Statement.{is_statement, enclosing_at};

use forest::stretch::{far_from, level_from};
use lent::refusal::Refusal;
use records::kinds::{DESCRIBE_STATEMENT, SELECT_STATEMENT};
use records::range::{is_holder, spans};
use records::record::{count_of, depth_at, end_at, kind_at, start_at};
use table::check::check;

// Is a node of this kind a statement?
pub fn is_statement(kind: usize) -> bool
    ensures { result ≡ is_statement kind }
{
    (SELECT_STATEMENT <= kind) & (kind <= DESCRIBE_STATEMENT)
}

// The search from record 0, in one pass. `best` is the innermost statement so far, and `floor` how deep what stands in it is: the first record that is
// shallower is past it, and then it is found. What stands in a node that does not hold the offset is passed over.
pub fn find_enclosing_statement(table: &[u8], offset: usize) -> Option<u32>
    requires { (0 < count table.now) × (count table.now < word_limit) }
    ensures { result ≡ enclosing_at table.now offset }
{
    let start = start_at(table, 0);
    let end = end_at(table, 0);
    if !spans(start, end, offset) {
        return None;
    }
    let m = count_of(table);
    let mut best = if is_statement(kind_at(table, 0)) {
        Some(0)
    } else {
        None
    };
    let mut floor = depth_at(table, 0) + 1;
    let mut i = level_from(table, floor, 1);
    // While, not for: the floor rises with the records found, and the next index is the next record at it.
    while i < m {
        let d = depth_at(table, i);
        if d < floor {
            return best;
        }
        if is_holder(table, i, offset) {
            if is_statement(kind_at(table, i)) {
                best = Some(i as u32);
                floor = d + 1;
            }
            i = level_from(table, d + 1, i + 1);
        } else {
            i = far_from(table, d, i + 1);
        }
    }
    best
}

// The statement that encloses the offset, which may be none.
pub fn enclosing_statement(
    table: &[u8],
    source: &[u8],
    offset: usize,
) -> Result<Option<u32>, Refusal>
    ensures { result ≡ reply (verdict table.now (length source.now) 0) (enclosing_at table.now offset) }
{
    check(table, source)?;
    Ok(find_enclosing_statement(table, offset))
}
