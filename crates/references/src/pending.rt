// A reference, and what a table name gives: the pending reference of a table reading.
ghost use Rattle.std.specs.Prelude.{◌≡◌, List, ℕ};
ghost use Rattle.forest.specs.Parts.{below};
ghost use Rattle.names.specs.Names.{is_part, direct};
ghost use Rattle.references.specs.References.{fresh};
ghost use Rattle.references.specs.inner.Pending.{pends};

use forest::part::Part;
use names::names::is_part;
use quotes::quotes::{NameRanges, name_of, no_name};

// A table reference in FROM or JOIN.
#[derive(Clone, Copy)]
pub struct TableRef {
    pub record: usize,
    pub database: NameRanges,
    pub table: NameRanges,
    pub alias: NameRanges,
}

// The reference of a table name, the first record of the part: of one part or two, else none.
pub fn extract_table_identifier(part: &Part, source: &[u8]) -> Option<TableRef>
    ensures { result ≡ fresh source.now part.now.base (direct is_part (below part.now)) }
{
    let m = part.count();
    let mut parts: usize = 0;
    let mut database = no_name();
    let mut table = no_name();
    let mut i = part.child_from(1);
    // While, not for: the next child begins where the records of this one end.
    while i < m {
        let t = part.record_at(i);
        if is_part(t) {
            parts += 1;
            database = table;
            table = name_of(source, t);
            i = part.child_from(i + 1);
        } else {
            i = part.child_from(i + 1);
        }
    }
    if parts == 0 {
        return None;
    }
    if 2 < parts {
        return None;
    }
    Some(TableRef {
        record: part.base,
        database,
        table,
        alias: no_name(),
    })
}

// Does a table name, the first record of the part, give a reference: has it one part or two? Not by extract_table_identifier: it reads
// both names too, which the list of aliases does not ask for.
pub fn gives_reference(part: &Part) -> bool
    ensures { (src : List ℕ) → result ≡ pends (fresh src part.now.base (direct is_part (below part.now))) }
{
    let m = part.count();
    let mut parts: usize = 0;
    let mut i = part.child_from(1);
    // While, not for: the next child begins where the records of this one end.
    while i < m {
        let t = part.record_at(i);
        if is_part(t) {
            parts += 1;
            i = part.child_from(i + 1);
        } else {
            i = part.child_from(i + 1);
        }
    }
    (1 <= parts) & (parts <= 2)
}
