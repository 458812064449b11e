// The pending reference by the records that make it.
ghost use Rattle.std.specs.Prelude.{◌≡◌, List, ℕ, ◌+◌, ◌≤◌, ◌<◌, Option, IfSome};
ghost use Rattle.records.specs.Table.{count};
ghost use Rattle.forest.specs.Parts.{size};
ghost use Rattle.conditions.specs.Conditions.{most_records};
ghost use Rattle.references.specs.inner.Pending.{pends};
ghost use Rattle.tables.specs.Tables.{aliased};
ghost use Rattle.tables.specs.inner.Waiting.{pending_at, alias_after};

use forest::part::Part;
use names::names::{NameBinding, bound_name, extract_alias_name};
use references::pending::{TableRef, extract_table_identifier, gives_reference};

// The pending reference after an alias.
fn with_alias(p: Option<TableRef>, b: Option<NameBinding>) -> Option<TableRef>
    ensures { result ≡ aliased p b }
{
    let reference = p?;
    match b {
        None => p,
        Some(n) => Some(TableRef {
            alias: bound_name(n),
            ..reference
        }),
    }
}

// The pending reference of a reading, by records of the stretch s that is read: the table name, and the alias that is set.
// The stretch is no `Part`: without a name it may have no record.
pub fn pending_of(
    s: &[u8],
    base: usize,
    source: &[u8],
    name: Option<usize>,
    alias: Option<usize>,
) -> Option<TableRef>
    requires { IfSome name (λ n. n < count s.now) × IfSome alias (λ a. a < count s.now) × (base + count s.now ≤ most_records) }
    ensures { result ≡ pending_at source.now base s.now name alias }
{
    let n = name?;
    let part = Part { bytes: s, base };
    let reference = extract_table_identifier(&part.stretch_of(n), source);
    match alias {
        None => reference,
        Some(a) => with_alias(reference, extract_alias_name(&part.stretch_of(a), source)),
    }
}

// Is a reference pending, by the record of its table name? An alias does not matter to that.
// The stretch is no `Part`: without a name it may have no record.
pub fn is_waiting(s: &[u8], base: usize, name: Option<usize>) -> bool
    requires { IfSome name (λ n. n < count s.now) × (base + count s.now ≤ most_records) }
    ensures { (src : List ℕ) (alias : Option ℕ) → result ≡ pends (pending_at src base s.now name alias) }
{
    match name {
        None => false,
        Some(n) => gives_reference(&Part { bytes: s, base }.stretch_of(n)),
    }
}

// The alias that is set after that at record i: it, unless it has no name and another is set.
pub fn alias_after(part: &Part, source: &[u8], alias: Option<usize>, i: usize) -> usize
    requires { IfSome alias (λ a. a < size part.now) × (i < size part.now) }
    ensures { (result ≡ alias_after source.now part.now.base part.now.bytes.now alias i) × (result < size part.now) }
{
    match alias {
        None => i,
        Some(a) => match extract_alias_name(&part.stretch_of(i), source) {
            None => a,
            Some(_) => i,
        },
    }
}
