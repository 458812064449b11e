// The trailing rule: the offset may stand past the end of a statement's last clause.
ghost use Rattle.std.specs.Prelude.{◌≡◌, ℕ, ◌+◌, ◌-◌, ◌≤◌, ◌<◌, None, IfSome};
ghost use Rattle.records.specs.Table.{count, records};
ghost use Rattle.forest.specs.Forest.{kids};
ghost use Rattle.contexts.specs.inner.ByNumber.{clause_at, trailing_from};
ghost use Rattle.contexts.specs.Trailing.{last_clause, past_clause};

use crate::context::CursorContext;
use forest::stretch::{child_from, rest_from};
use records::kinds::{
    FORMAT_CLAUSE, FROM_CLAUSE, GROUP_BY_CLAUSE, HAVING_CLAUSE, ORDER_BY_CLAUSE, PREWHERE_CLAUSE,
    SELECT_CLAUSE, SETTINGS_CLAUSE, WHERE_CLAUSE, is_node,
};
use records::record::{count_of, end_at, kind_at, start_at};

// A clause's kind and its end.
#[derive(Clone, Copy)]
pub struct Clause {
    pub kind: usize,
    pub end: usize,
}

// The last child node of the stretch's first record that starts at or before the offset.
fn last_clause(s: &[u8], offset: usize) -> Option<Clause>
    ensures { (base : ℕ) → result ≡ last_clause offset None (kids (records base s.now)) }
{
    let mut last = None;
    let m = count_of(s);
    if m == 0 {
        return last;
    }
    let mut i = child_from(s, 1);
    // While, not for: the next child begins where the records of this one end.
    while i < m {
        last = clause_at(s, i, offset, last);
        i = child_from(s, i + 1);
    }
    last
}

// Record i, if it is a node that starts at or before the offset, else the last one before it.
fn clause_at(s: &[u8], i: usize, offset: usize, last: Option<Clause>) -> Option<Clause>
    requires { i < count s.now }
    ensures { result ≡ clause_at s.now i offset last }
{
    let kind = kind_at(s, i);
    if is_node(kind) & (start_at(s, i) <= offset) {
        return Some(Clause {
            kind: kind,
            end: end_at(s, i),
        });
    }
    last
}

// What a clause gives to an offset past its end.
fn past_clause(kind: usize) -> Option<CursorContext>
    ensures { result ≡ past_clause kind }
{
    match kind {
        PREWHERE_CLAUSE => Some(CursorContext::Expression),
        WHERE_CLAUSE => Some(CursorContext::Expression),
        GROUP_BY_CLAUSE => Some(CursorContext::Expression),
        HAVING_CLAUSE => Some(CursorContext::Expression),
        ORDER_BY_CLAUSE => Some(CursorContext::Expression),
        FROM_CLAUSE => Some(CursorContext::TableReference {
            database_prefix: None,
        }),
        SELECT_CLAUSE => Some(CursorContext::SelectExpression),
        SETTINGS_CLAUSE => Some(CursorContext::SettingName),
        FORMAT_CLAUSE => Some(CursorContext::FormatName),
        _ => None,
    }
}

// The trailing rule, of the statement by its record's number, if there is one.
pub fn check_trailing_clause(
    table: &[u8],
    statement: Option<usize>,
    offset: usize,
) -> Option<CursorContext>
    requires { IfSome statement (λ n. n < count table.now) }
    ensures { result ≡ trailing_from table.now offset statement }
{
    let clause = last_clause(rest_from(table, statement?), offset)?;
    if clause.end < offset {
        past_clause(clause.kind)
    } else {
        None
    }
}
