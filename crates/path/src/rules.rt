// Which of document 01's path rules speaks of a node. contexts/specs/PathRules.antt has them, numbered from 2 to 13: 1 is the
// trailing rule, 14 the last.
ghost use Rattle.std.specs.Prelude.{◌≡◌};
ghost use Rattle.path.specs.Path.{Deepest, Above};
ghost use Rattle.path.specs.inner.Rules.{rule_of, applies_over, rule_number, rule_numbered};

use records::kinds::{
    AGGREGATE_FUNCTION, COLUMN_CODEC, COLUMN_DEFINITION, COLUMN_TYPE_DEFINITION, DATA_TYPE,
    DATA_TYPE_PARAMETERS, ENGINE_CLAUSE, ERROR, FILE, FORMAT_CLAUSE, FROM_CLAUSE, FUNCTION_CALL,
    GROUP_BY_CLAUSE, HAVING_CLAUSE, INSERT_FORMAT_CLAUSE, INSERT_STATEMENT, JOIN_CLAUSE,
    ORDER_BY_CLAUSE, PREWHERE_CLAUSE, QUERY_LIST, SELECT_CLAUSE, SETTING_LIST, SETTINGS_CLAUSE,
    TABLE_IDENTIFIER, WHERE_CLAUSE,
};

// A path rule, with its number there.
#[derive(Clone, Copy)]
pub enum PathRule {
    From = 2,
    Join = 3,
    Insert = 4,
    Settings = 5,
    Engine = 6,
    Format = 7,
    DataType = 8,
    Definition = 9,
    Codec = 10,
    Function = 11,
    Column = 12,
    Start = 13,
}

impl PathRule {
    // Its number.
    pub fn number(self) -> usize
        ensures { result ≡ rule_number self }
    {
        self as usize
    }

    // The rule of this number, if there is one.
    pub fn numbered(number: usize) -> Option<PathRule>
        ensures { result ≡ rule_numbered number }
    {
        match number {
            2 => Some(PathRule::From),
            3 => Some(PathRule::Join),
            4 => Some(PathRule::Insert),
            5 => Some(PathRule::Settings),
            6 => Some(PathRule::Engine),
            7 => Some(PathRule::Format),
            8 => Some(PathRule::DataType),
            9 => Some(PathRule::Definition),
            10 => Some(PathRule::Codec),
            11 => Some(PathRule::Function),
            12 => Some(PathRule::Column),
            13 => Some(PathRule::Start),
            _ => None,
        }
    }
}

// The rule that speaks of a node of this kind, if it is deepest.
pub fn rule_by_kind(kind: usize) -> Option<PathRule>
    ensures { result ≡ rule_of kind Deepest }
{
    match kind {
        FROM_CLAUSE => Some(PathRule::From),
        JOIN_CLAUSE => Some(PathRule::Join),
        INSERT_STATEMENT => Some(PathRule::Insert),
        SETTINGS_CLAUSE => Some(PathRule::Settings),
        SETTING_LIST => Some(PathRule::Settings),
        ENGINE_CLAUSE => Some(PathRule::Engine),
        FORMAT_CLAUSE => Some(PathRule::Format),
        INSERT_FORMAT_CLAUSE => Some(PathRule::Format),
        COLUMN_TYPE_DEFINITION => Some(PathRule::DataType),
        DATA_TYPE => Some(PathRule::DataType),
        DATA_TYPE_PARAMETERS => Some(PathRule::DataType),
        COLUMN_DEFINITION => Some(PathRule::Definition),
        COLUMN_CODEC => Some(PathRule::Codec),
        FUNCTION_CALL => Some(PathRule::Function),
        AGGREGATE_FUNCTION => Some(PathRule::Function),
        SELECT_CLAUSE => Some(PathRule::Column),
        PREWHERE_CLAUSE => Some(PathRule::Column),
        WHERE_CLAUSE => Some(PathRule::Column),
        GROUP_BY_CLAUSE => Some(PathRule::Column),
        HAVING_CLAUSE => Some(PathRule::Column),
        ORDER_BY_CLAUSE => Some(PathRule::Column),
        FILE => Some(PathRule::Start),
        QUERY_LIST => Some(PathRule::Start),
        _ => None,
    }
}

// Does a rule that speaks of the deepest node apply also where a node of this kind is next below?
fn applies_over(rule: PathRule, below: usize) -> bool
    ensures { result ≡ applies_over rule below }
{
    match rule {
        PathRule::Insert => below == TABLE_IDENTIFIER,
        PathRule::Definition => below == ERROR,
        PathRule::Start => false,
        _ => true,
    }
}

// The rule that speaks of a node of this kind, where it applies with a node of that kind next below.
pub fn rule_over(kind: usize, below: usize) -> Option<PathRule>
    ensures { result ≡ rule_of kind (Above below) }
{
    let rule = rule_by_kind(kind)?;
    if applies_over(rule, below) {
        Some(rule)
    } else {
        None
    }
}
