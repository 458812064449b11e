// What a path gathers on the way down, for the rules that look at it.
ghost use Rattle.std.specs.Prelude.{◌≡◌, ℕ, ◌<◌};
ghost use Rattle.path.specs.inner.Gathered.{settled_by, stepped, Within};

use crate::rules::{PathRule, rule_over};
use records::kinds::{
    JOIN_CONSTRAINT, OTHER_NODE, SELECT_STATEMENT, SUBQUERY_EXPRESSION, UPDATE_STATEMENT,
};

// A node and its rule, which applies: it decides, unless a deeper node's rule does.
#[derive(Clone, Copy)]
pub struct Ruling {
    pub node: usize,
    pub rule: PathRule,
}

// What the path's rules need of it. The deepest node so far, with its kind; of those above it the deepest whose rule applies;
// the deepest statement and the deepest subquery; and whether a JoinConstraint is on it.
#[derive(Clone, Copy)]
pub struct Gathered {
    pub node: usize,
    pub kind: usize,
    pub ruling: Option<Ruling>,
    pub statement: Option<usize>,
    pub query: Option<usize>,
    pub constrained: bool,
}

// Nothing is gathered yet.
pub const NOTHING: Gathered = Gathered {
    node: 0,
    kind: OTHER_NODE,
    ruling: None,
    statement: None,
    query: None,
    constrained: false,
};

// The last node is settled by this rule: if it applies, it is the one that decides.
pub fn settle(g: Gathered, rule: Option<PathRule>) -> Gathered
    ensures { (result ≡ settled_by g rule) × ((n : ℕ) → Within n g → Within n result) }
{
    match rule {
        None => g,
        Some(rule) => Gathered {
            ruling: Some(Ruling {
                node: g.node,
                rule: rule,
            }),
            ..g
        },
    }
}

// One step down, to node i, of this kind.
pub fn enter(g: Gathered, kind: usize, i: usize) -> Gathered
    ensures { (result ≡ stepped g kind i) × ((n : ℕ) → Within n g → i < n → Within n result) }
{
    let above = settle(g, rule_over(g.kind, kind));
    let is_statement = (SELECT_STATEMENT <= kind) & (kind <= UPDATE_STATEMENT);
    Gathered {
        node: i,
        kind: kind,
        statement: if is_statement {
            Some(i)
        } else {
            above.statement
        },
        query: if kind == SUBQUERY_EXPRESSION {
            Some(i)
        } else {
            above.query
        },
        constrained: above.constrained | (kind == JOIN_CONSTRAINT),
        ..above
    }
}
