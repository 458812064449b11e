// The first rule that a record breaks, record by record.
ghost use Rattle.std.specs.Prelude.{◌≡◌, ◌≤◌};
ghost use Rattle.lent.specs.Verdicts.{first};
ghost use Rattle.records.specs.Table.{count};
ghost use Rattle.conditions.specs.Conditions.{most_records};
ghost use Rattle.refusals.specs.ByRecord.{rules_from};

use lent::refusal::{Condition, Refusal, refused};
use record_conditions::step::{DEPTHS, Known, after, misfit, off_source, strays};
use records::record::{RECORD_BYTES, record_at};

// Record by record, refusals 3, 4, 5, 12 and 6, for a source of n bytes. `above[d]` is the last record whose depth is one less than d.
pub fn check_records(table: &[u8], n: usize) -> Result<(), Refusal>
    requires { count table.now ≤ most_records }
    ensures { result ≡ first (rules_from table.now n 0 (count table.now)) }
{
    let m = table.len() / RECORD_BYTES;
    let mut b = Known { deepest: 0, end: 0 };
    let mut above = [0; DEPTHS];
    for i in 0..m {
        let r = record_at(table, 0, i);
        if let Some(condition) = misfit(b, r) {
            return refused(condition, i as u32);
        }
        let d = r.depth;
        if strays(table, i, above[d]) {
            return refused(Condition::WrongParent, i as u32);
        }
        if off_source(n, b, r) {
            return refused(Condition::BadSpan, i as u32);
        }
        above[d + 1] = i;
        b = after(b, r);
    }
    Ok(())
}
