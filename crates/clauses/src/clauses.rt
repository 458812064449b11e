// The clauses that a list is read from, and whether a stretch has one: where it has none, nothing is collected in it.
ghost use Rattle.std.specs.Prelude.{◌≡◌, not, ◌&&◌, ◌≤◌, ◌<◌, eqb};
ghost use Rattle.records.specs.Kinds.{subquery_expression};
ghost use Rattle.records.specs.Table.{count, kind_at, from, records};
ghost use Rattle.clauses.specs.inner.Clauses.{in_kinds, some_kind, some_clause};

use records::kinds::{FROM_CLAUSE, JOIN_CLAUSE, SELECT_CLAUSE, SUBQUERY_EXPRESSION, WITH_CLAUSE};
use records::record::{count_of, kind_at};

// A list of a scope: which one is asked for.
#[derive(Clone, Copy)]
pub enum ScopeList {
    WithNames,
    TableAliases,
    ColumnAliases,
    TableRefs,
}

// Is k one of the kinds from the first to the last?
fn is_within(k: usize, first: usize, last: usize) -> bool
    ensures { result ≡ in_kinds first last k }
{
    (first <= k) & (k <= last)
}

// Has a record of s from j on one of these kinds?
fn has_kind_from(s: &[u8], first: usize, last: usize, j: usize) -> bool
    requires { j ≤ count s.now }
    ensures { result ≡ some_kind first last (from s.now 0 j) }
{
    let m = count_of(s);
    for i in j..m {
        if is_within(kind_at(s, i), first, last) {
            return true;
        }
    }
    false
}

// Has a record of s one of these kinds? Four records at a turn.
fn has_kind(s: &[u8], first: usize, last: usize) -> bool
    ensures { result ≡ some_kind first last (records 0 s.now) }
{
    let m = count_of(s);
    let mut i = 0;
    // While, not for: one record at a turn reads a list of four in more instructions than its bar.
    while i + 4 <= m {
        if is_within(kind_at(s, i), first, last) {
            return true;
        }
        if is_within(kind_at(s, i + 1), first, last) {
            return true;
        }
        if is_within(kind_at(s, i + 2), first, last) {
            return true;
        }
        if is_within(kind_at(s, i + 3), first, last) {
            return true;
        }
        i += 4;
    }
    has_kind_from(s, first, last, i)
}

// Has the stretch s a clause that the list is read from?
fn has_clause(asked: ScopeList, s: &[u8]) -> bool
    ensures { result ≡ some_clause asked (records 0 s.now) }
{
    match asked {
        ScopeList::WithNames => has_kind(s, WITH_CLAUSE, WITH_CLAUSE),
        ScopeList::TableAliases => has_kind(s, FROM_CLAUSE, JOIN_CLAUSE),
        ScopeList::ColumnAliases => has_kind(s, SELECT_CLAUSE, SELECT_CLAUSE),
        ScopeList::TableRefs => has_kind(s, FROM_CLAUSE, JOIN_CLAUSE),
    }
}

// Is there something to collect in a child's stretch? Subqueries are left unvisited.
pub fn hands_on(asked: ScopeList, s: &[u8]) -> bool
    requires { 0 < count s.now }
    ensures { result ≡ (not (eqb (kind_at s.now 0) subquery_expression) && some_clause asked (records 0 s.now)) }
{
    if kind_at(s, 0) == SUBQUERY_EXPRESSION {
        return false;
    }
    has_clause(asked, s)
}
