// What is being typed, as a context and as numbers.
ghost use Rattle.std.specs.Prelude.{◌≡◌};
ghost use Rattle.contexts.specs.Context.{range_of, reference_number, code, coded};

use records::range::{Range, no_range};

// What is being typed.
#[derive(Clone, Copy)]
pub enum CursorContext {
    SelectExpression,
    TableReference {
        database_prefix: Option<Range>,
    },
    ColumnOfTable {
        qualifier: Range,
    },
    Expression,
    SettingName,
    EngineName,
    FormatName,
    DataType,
    CodecName,
    FunctionArgument {
        function_name: Option<Range>,
        argument_index: usize,
    },
    StatementStart,
    Unknown,
}

// A context as numbers: its own, its name's range and its argument's index.
#[derive(Clone, Copy)]
pub struct Coded {
    pub number: usize,
    pub name: Range,
    pub index: usize,
}

// The range of a name, absent where there is none.
fn range_of(name: Option<Range>) -> Range
    ensures { result ≡ range_of name }
{
    name.unwrap_or(no_range())
}

// A table reference has one number without a prefix and another with one.
fn reference_number(prefix: Option<Range>) -> usize
    ensures { result ≡ reference_number prefix }
{
    match prefix {
        Some(_) => 2,
        None => 1,
    }
}

// A context by its number, its name and its index. By hand, not a derive: C reads the number beside the name and the index, which a discriminant has not.
fn code(number: usize, name: Option<Range>, index: usize) -> Coded
    ensures { result ≡ code number name index }
{
    let range = range_of(name);
    Coded {
        number: number,
        name: range,
        index: index,
    }
}

// The numbers of a context.
pub fn code_of(c: CursorContext) -> Coded
    ensures { result ≡ coded c }
{
    match c {
        CursorContext::SelectExpression => code(0, None, 0),
        CursorContext::TableReference { database_prefix } => {
            code(reference_number(database_prefix), database_prefix, 0)
        }
        CursorContext::ColumnOfTable { qualifier } => code(3, Some(qualifier), 0),
        CursorContext::Expression => code(4, None, 0),
        CursorContext::SettingName => code(5, None, 0),
        CursorContext::EngineName => code(6, None, 0),
        CursorContext::FormatName => code(7, None, 0),
        CursorContext::DataType => code(8, None, 0),
        CursorContext::CodecName => code(9, None, 0),
        CursorContext::FunctionArgument {
            function_name,
            argument_index,
        } => code(10, function_name, argument_index),
        CursorContext::StatementStart => code(11, None, 0),
        CursorContext::Unknown => code(12, None, 0),
    }
}
