// The table check: every table, source and message is admitted, or refused with the number of the first broken rule.
ghost use Rattle.std.specs.Prelude.{◌≡◌, length};
ghost use Rattle.table.specs.Rules.{verdict, root_verdict, offset_verdict};
ghost use Rattle.table.specs.inner.Whole.{verdict_on};

use conditions::whole::{bad_length, bad_offsets, no_root, too_long};
use in_order::in_order::all_in_order;
use lent::refusal::{Condition, Refusal, refused};
use refusals::by_record::check_records;

// The verdict on a table, for a source, a message and offsets of these lengths, 0 where a question takes none.
fn verdict_on(table: &[u8], source: usize, message: usize, offsets: usize) -> Result<(), Refusal>
    ensures { result ≡ verdict_on table.now source message offsets }
{
    if bad_length(table) {
        return refused(Condition::BadLength, 0);
    }
    if too_long(source, message) {
        return refused(Condition::TooLong, 0);
    }
    if bad_offsets(offsets) {
        return refused(Condition::BadOffsets, 0);
    }
    if all_in_order(table, source) {
        return Ok(());
    }
    check_records(table, source)
}

// The check that every question begins with.
pub fn check(table: &[u8], source: &[u8]) -> Result<(), Refusal>
    ensures { result ≡ verdict table.now (length source.now) 0 }
{
    verdict_on(table, source.len(), 0, 0)
}

// The check of a question that takes a message too.
pub fn check_message(table: &[u8], source: &[u8], message: &[u8]) -> Result<(), Refusal>
    ensures { result ≡ verdict table.now (length source.now) (length message.now) }
{
    verdict_on(table, source.len(), message.len(), 0)
}

// The check of a question that takes offsets too: refusal 10 after 2, and before the records'.
pub fn check_offsets(table: &[u8], source: &[u8], offsets: &[u8]) -> Result<(), Refusal>
    ensures { result ≡ offset_verdict table.now (length source.now) (length offsets.now) }
{
    verdict_on(table, source.len(), 0, offsets.len())
}

// The check of a question that names a root: refusal 8 after 1 to 6.
pub fn check_root(table: &[u8], source: &[u8], root: usize) -> Result<(), Refusal>
    ensures { result ≡ root_verdict table.now (length source.now) root }
{
    // Not by `?`: here an edit tells 8 in the place of the table's own refusal, and the proof finds its names.
    if let Err(refusal) = check(table, source) {
        return Err(refusal);
    }
    if no_root(table, root) {
        return refused(Condition::NoRoot, 0);
    }
    Ok(())
}
