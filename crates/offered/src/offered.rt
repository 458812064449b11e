// The WITH names that are offered at a root: its own, then those that it sees of each enclosing root (document 02, §4).
ghost use Rattle.std.specs.Prelude.{[], ◌+◌, ◌≤◌, ◌<◌};
ghost use Rattle.records.specs.Table.{count, depth_at};
ghost use Rattle.conditions.specs.Conditions.{most_records, most_depth};
ghost use Rattle.lent.specs.Lists.{farthest, Written, Answers};
ghost use Rattle.names.specs.Bindings.{binding_row};
ghost use Rattle.forest.specs.inner.Climbing.{Climbs};
ghost use Rattle.enclosing.specs.Offered.{offered_in};
ghost use Rattle.enclosing.specs.inner.Climb.{around_bytes, own_list_bytes};

use clauses::clauses::ScopeList;
use collection::collection::collect_scope;
use enclosing::enclosing::collect_around;
use forest::part::Part;
use forest::stretch::stretch_of;
use lent::list::list_walked;
use lent::refusal::Refusal;
use names::bindings::BINDING_BYTES;
use records::kinds::SUBQUERY_EXPRESSION;
use records::record::kind_at;

// Writes the WITH names that are offered at the root n: its own, then those of the roots around it. Only a subquery has any around it.
fn collect_offered(table: &[u8], n: usize, source: &[u8], out: &mut [u8], at: usize) -> usize
    requires { ((n < count table.now) × (count table.now ≤ most_records) × (depth_at table.now n ≤ most_depth)
        × (at + own_list_bytes + around_bytes < farthest)) × Climbs table.now }
    ensures { Written binding_row (offered_in source.now table.now n) out.old at out.new result
        × (result ≤ at + own_list_bytes + around_bytes) }
{
    let part = Part {
        bytes: stretch_of(table, n),
        base: n,
    };
    let next = collect_scope(ScopeList::WithNames, &part, source, out, at);
    if kind_at(table, n) != SUBQUERY_EXPRESSION {
        return next;
    }
    collect_around(table, n, source, out, next)
}

// Lists the WITH names that are offered at the root n of a table that is admitted.
pub fn list_offered(table: &[u8], n: usize, source: &[u8], out: &mut [u8]) -> Result<u32, Refusal>
    requires { ((n < count table.now) × (count table.now ≤ most_records) × (depth_at table.now n ≤ most_depth)) × Climbs table.now }
    ensures { Answers [] binding_row (offered_in source.now table.now n) out.old result out.new }
{
    list_walked(
        |list| collect_offered(table, n, source, list, 0),
        BINDING_BYTES,
        out,
    )
}
