// The kinds of records, by document 01's numbers under the Rust's names. Numbers, not an enum: a kind is what four lent bytes say, any number is a kind (most
// are other nodes), and every definition compares that number, so an enum would need a case that holds it and a reading of it at each comparison.
ghost use Rattle.std.specs.Prelude.{◌≡◌};
ghost use Rattle.records.specs.Kinds.{is_node, is_token};

pub const OTHER_NODE: usize = 0;

pub const FILE: usize = 1;

pub const QUERY_LIST: usize = 2;

pub const ERROR: usize = 3;

pub const SELECT_STATEMENT: usize = 4;

pub const INSERT_STATEMENT: usize = 5;

pub const UPDATE_STATEMENT: usize = 9;

pub const DESCRIBE_STATEMENT: usize = 13;

pub const WITH_CLAUSE: usize = 14;

pub const SELECT_CLAUSE: usize = 15;

pub const FROM_CLAUSE: usize = 16;

pub const JOIN_CLAUSE: usize = 17;

pub const PREWHERE_CLAUSE: usize = 18;

pub const WHERE_CLAUSE: usize = 19;

pub const GROUP_BY_CLAUSE: usize = 20;

pub const HAVING_CLAUSE: usize = 21;

pub const ORDER_BY_CLAUSE: usize = 22;

pub const SETTINGS_CLAUSE: usize = 23;

pub const SETTING_LIST: usize = 24;

pub const ENGINE_CLAUSE: usize = 25;

pub const FORMAT_CLAUSE: usize = 26;

pub const INSERT_FORMAT_CLAUSE: usize = 27;

pub const JOIN_CONSTRAINT: usize = 28;

pub const WITH_EXPRESSION_ITEM: usize = 29;

pub const SUBQUERY_EXPRESSION: usize = 30;

pub const COLUMN_LIST: usize = 31;

pub const EXPRESSION_LIST: usize = 32;

pub const TABLE_IDENTIFIER: usize = 33;

pub const TABLE_EXPRESSION: usize = 34;

pub const TABLE_ALIAS: usize = 35;

pub const COLUMN_ALIAS: usize = 36;

pub const COLUMN_DEFINITION: usize = 37;

pub const COLUMN_TYPE_DEFINITION: usize = 38;

pub const COLUMN_CODEC: usize = 39;

pub const DATA_TYPE: usize = 40;

pub const DATA_TYPE_PARAMETERS: usize = 41;

pub const FUNCTION_CALL: usize = 43;

pub const AGGREGATE_FUNCTION: usize = 44;

pub const IDENTIFIER: usize = 46;

pub const LAST_NODE: usize = 55;

const FIRST_TOKEN: usize = 128;

pub const WHITESPACE: usize = 129;

pub const COMMENT: usize = 130;

pub const BARE_WORD: usize = 131;

pub const QUOTED_IDENTIFIER: usize = 132;

pub const NUMBER: usize = 133;

pub const STRING_TOKEN: usize = 134;

pub const HERE_DOC: usize = 135;

pub const COMMA: usize = 136;

pub const OPENING_ROUND: usize = 137;

const OPENING_SQUARE: usize = 138;

pub const OPENING_CURLY: usize = 139;

pub const CLOSING_ROUND: usize = 140;

const CLOSING_SQUARE: usize = 141;

pub const CLOSING_CURLY: usize = 142;

pub const PLUS: usize = 143;

pub const LAST_TOKEN: usize = 157;

// A kind of node.
pub fn is_node(kind: usize) -> bool
    ensures { result ≡ is_node kind }
{
    kind <= LAST_NODE
}

// A kind of token.
pub fn is_token(kind: usize) -> bool
    ensures { result ≡ is_token kind }
{
    (FIRST_TOKEN <= kind) & (kind <= LAST_TOKEN)
}
