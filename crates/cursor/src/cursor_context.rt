// The context at the cursor: the rules in their order.
ghost use Rattle.std.specs.Prelude.{◌≡◌, ◌<◌, length};
ghost use Rattle.lent.specs.Lists.{reply};
ghost use Rattle.records.specs.Table.{count};
ghost use Rattle.lent.specs.Numbers.{word_limit};
ghost use Rattle.table.specs.Rules.{verdict};
ghost use Rattle.forest.specs.inner.Ordered.{Ordered};
ghost use Rattle.path.specs.inner.Gathered.{Within};
ghost use Rattle.path.specs.inner.Starts.{Starts};
ghost use Rattle.cursor.specs.inner.Steps.{analyzed};
ghost use Rattle.cursor.specs.CursorContext.{starts_after, last_rule, context_at};

use contexts::context::CursorContext;
use contexts::trailing::check_trailing_clause;
use descent::descent::{find_node_path, path_from};
use forest::stretch::rest_from;
use lent::refusal::Refusal;
use path::gathered::Gathered;
use path_rules::rules::rule_context;
use readings::last_token::token_before_offset;
use records::kinds::FILE;
use records::range::Range;
use records::record::kind_at;
use table::check::check;
use text::text::text_of;
use tokens::last_token::is_byte;

// The last rule: at the start of a file or after a semicolon a statement starts.
fn at_statement_start(table: &[u8], source: &[u8], offset: usize) -> CursorContext
    requires { (0 < count table.now) × Ordered table.now }
    ensures { result ≡ last_rule source.now table.now offset }
{
    if kind_at(table, 0) != FILE {
        return CursorContext::Unknown;
    }
    let two = token_before_offset(table, offset);
    let last = two.last;
    if starts_after(source, last) {
        return CursorContext::StatementStart;
    }
    CursorContext::Unknown
}

// There is no last token, or it is `;`.
fn starts_after(source: &[u8], last: Option<Range>) -> bool
    ensures { result ≡ starts_after source.now last }
{
    match last {
        None => true,
        Some(range) => is_byte(text_of(source, range.start, range.end), b';'),
    }
}

// The rules in their order: the trailing rule, the path's, the last.
fn analyze_path(table: &[u8], source: &[u8], offset: usize, path: Gathered) -> CursorContext
    requires { (0 < count table.now) × Within (count table.now) path × Ordered table.now }
    ensures { result ≡ analyzed source.now table.now offset path }
{
    if let Some(context) = check_trailing_clause(table, path.statement, offset) {
        return context;
    }
    if let Some(ruling) = path.ruling {
        let s = rest_from(table, ruling.node);
        return rule_context(s, source, offset, ruling.rule.number(), path.constrained);
    }
    at_statement_start(table, source, offset)
}

// The context, for a table that is admitted.
pub fn context_at(table: &[u8], source: &[u8], offset: usize) -> CursorContext
    requires { (0 < count table.now) × (count table.now < word_limit) × Ordered table.now }
    ensures { result ≡ context_at source.now table.now offset }
{
    let path = find_node_path(table, offset);
    analyze_path(table, source, offset, path)
}

// The same, where the search among record 0's children may begin at the first that is named.
pub fn context_from(table: &[u8], source: &[u8], offset: usize, first: usize) -> CursorContext
    requires { ((0 < count table.now) × (count table.now < word_limit)) × Ordered table.now × Starts table.now offset first }
    ensures { result ≡ context_at source.now table.now offset }
{
    let path = path_from(table, offset, first);
    analyze_path(table, source, offset, path)
}

// What is being typed at the offset.
pub fn cursor_context(table: &[u8], source: &[u8], offset: usize) -> Result<CursorContext, Refusal>
    ensures { result ≡ reply (verdict table.now (length source.now) 0)
        (context_at source.now table.now offset) }
{
    check(table, source)?;
    Ok(context_at(table, source, offset))
}
