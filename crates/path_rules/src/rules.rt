// What the rules of the path's nodes give.
ghost use Rattle.std.specs.Prelude.{◌≡◌, ℕ, ◌<◌};
ghost use Rattle.records.specs.Table.{count, kind_at, records};
ghost use Rattle.forest.specs.Forest.{kids};
ghost use Rattle.forest.specs.inner.Ordered.{Ordered};
ghost use Rattle.tokens.specs.LastToken.{last_two, dotted};
ghost use Rattle.contexts.specs.inner.ByNumber.{given_by};
ghost use Rattle.contexts.specs.PathRules.{table_reference, column_or, column, joined, function_argument};

use contexts::context::CursorContext;
use function_name::function_name::extract_function_name;
use path::rules::PathRule;
use readings::function::count_commas_before;
use readings::last_token::token_before_offset;
use records::kinds::SELECT_CLAUSE;
use records::record::kind_at;
use tokens::last_token::{find_identifier_before_dot, is_join_word};

// TableReference, with a prefix after a dot.
fn table_ref_or_dot(s: &[u8], source: &[u8], offset: usize) -> CursorContext
    requires { Ordered s.now }
    ensures { (base : ℕ) → result ≡ table_reference source.now offset (kids (records base s.now)) }
{
    let two = token_before_offset(s, offset);
    CursorContext::TableReference {
        database_prefix: find_identifier_before_dot(source, two),
    }
}

// ColumnOfTable after a dot, else the other.
fn check_dot_access(s: &[u8], source: &[u8], offset: usize, other: CursorContext) -> CursorContext
    requires { Ordered s.now }
    ensures { (base : ℕ) → result ≡ column_or other (dotted source.now (last_two offset (kids (records base s.now)))) }
{
    let two = token_before_offset(s, offset);
    match find_identifier_before_dot(source, two) {
        None => other,
        Some(range) => CursorContext::ColumnOfTable { qualifier: range },
    }
}

// After ON or USING and in a JoinConstraint an expression, else as FROM.
fn join_context(s: &[u8], source: &[u8], offset: usize, constrained: bool) -> CursorContext
    requires { Ordered s.now }
    ensures { (base : ℕ) → result ≡ joined source.now offset constrained (kids (records base s.now)) }
{
    let two = token_before_offset(s, offset);
    if is_join_word(source, two) | constrained {
        return CursorContext::Expression;
    }
    CursorContext::TableReference {
        database_prefix: find_identifier_before_dot(source, two),
    }
}

// FunctionArgument, with the function's name and the argument's index.
fn function_argument(s: &[u8], offset: usize) -> CursorContext
    requires { Ordered s.now }
    ensures { (base : ℕ) → result ≡ function_argument offset (kids (records base s.now)) }
{
    CursorContext::FunctionArgument {
        function_name: extract_function_name(s),
        argument_index: count_commas_before(s, offset),
    }
}

// ColumnOfTable after a dot, else by the kind of the node that begins the stretch s.
fn column_context(s: &[u8], source: &[u8], offset: usize) -> CursorContext
    requires { (0 < count s.now) × Ordered s.now }
    ensures { (base : ℕ) → result ≡ column source.now offset (kind_at s.now 0) (kids (records base s.now)) }
{
    if kind_at(s, 0) == SELECT_CLAUSE {
        return check_dot_access(s, source, offset, CursorContext::SelectExpression);
    }
    check_dot_access(s, source, offset, CursorContext::Expression)
}

// What the rule of this number gives, at the node that begins the stretch s: Unknown where no path rule has it.
pub fn rule_context(
    s: &[u8],
    source: &[u8],
    offset: usize,
    rule: usize,
    constrained: bool,
) -> CursorContext
    requires { (0 < count s.now) × Ordered s.now }
    ensures { (base : ℕ) → result ≡ given_by source.now offset constrained rule (kind_at s.now 0)
        (kids (records base s.now)) }
{
    match PathRule::numbered(rule) {
        Some(PathRule::From) => table_ref_or_dot(s, source, offset),
        Some(PathRule::Join) => join_context(s, source, offset, constrained),
        Some(PathRule::Insert) => table_ref_or_dot(s, source, offset),
        Some(PathRule::Settings) => CursorContext::SettingName,
        Some(PathRule::Engine) => CursorContext::EngineName,
        Some(PathRule::Format) => CursorContext::FormatName,
        Some(PathRule::DataType) => CursorContext::DataType,
        Some(PathRule::Definition) => CursorContext::DataType,
        Some(PathRule::Codec) => CursorContext::CodecName,
        Some(PathRule::Function) => function_argument(s, offset),
        Some(PathRule::Column) => column_context(s, source, offset),
        Some(PathRule::Start) => CursorContext::StatementStart,
        None => CursorContext::Unknown,
    }
}
