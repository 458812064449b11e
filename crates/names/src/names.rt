// Names in a source: which tokens are names, and what a WITH item or an alias binds.
ghost use Rattle.std.specs.Prelude.{◌≡◌, cond};
ghost use Rattle.forest.specs.Parts.{head, below};
ghost use Rattle.names.specs.Names.{is_as, is_part, is_name, binding, bound_name, with_item, alias_in};

use forest::part::Part;
use quotes::quotes::{NameRanges, name_of};
use records::kinds::{BARE_WORD, QUOTED_IDENTIFIER};
use records::range::Range;
use records::record::Rec;
use text::text::{says, text_of};

// A name that a WITH item, a table alias or a column alias binds.
#[derive(Clone, Copy)]
pub struct NameBinding {
    pub token: Range,
    pub name: Range,
    pub definition: Range,
}

// Is the token's text AS, in any ASCII case?
fn is_as(source: &[u8], t: Rec) -> bool
    ensures { result ≡ is_as source.now t }
{
    says(b"AS", text_of(source, t.start, t.end))
}

// Is the token a part of a table's name?
pub fn is_part(t: Rec) -> bool
    ensures { result ≡ is_part t }
{
    (t.kind == BARE_WORD) | (t.kind == QUOTED_IDENTIFIER)
}

// Is the token a WITH name or an alias?
fn is_name(source: &[u8], t: Rec) -> bool
    ensures { result ≡ is_name source.now t }
{
    if t.kind == QUOTED_IDENTIFIER {
        return true;
    }
    if t.kind == BARE_WORD {
        return !is_as(source, t);
    }
    false
}

// What the node r binds by its token t.
fn binding_of(source: &[u8], r: Rec, t: Rec) -> NameBinding
    ensures { result ≡ binding source.now r t }
{
    let n = name_of(source, t);
    let token = n.outer;
    let name = n.inner;
    NameBinding {
        token,
        name,
        definition: Range::from(r),
    }
}

// The name that is bound.
pub fn bound_name(b: NameBinding) -> NameRanges
    ensures { result ≡ bound_name b }
{
    let outer = b.token;
    let inner = b.name;
    NameRanges { outer, inner }
}

// What a WITH item, the first record of the part, binds: its first name.
pub fn extract_cte(part: &Part, source: &[u8]) -> Option<NameBinding>
    ensures { result ≡ with_item source.now (head part.now) (below part.now) }
{
    let m = part.count();
    let mut i = part.child_from(1);
    // While, not for: the next child begins where the records of this one end.
    while i < m {
        let t = part.record_at(i);
        if is_name(source, t) {
            return Some(binding_of(source, part.record_at(0), t));
        }
        i = part.child_from(i + 1);
    }
    None
}

// What the node r binds after its token t, where it bound b before.
fn later(source: &[u8], r: Rec, b: Option<NameBinding>, t: Rec) -> Option<NameBinding>
    ensures { result ≡ cond (is_name source.now t) (Some (binding source.now r t)) b }
{
    if is_name(source, t) {
        Some(binding_of(source, r, t))
    } else {
        b
    }
}

// What an alias, the first record of the part, binds: its last name.
pub fn extract_alias_name(part: &Part, source: &[u8]) -> Option<NameBinding>
    ensures { result ≡ alias_in source.now (head part.now) (below part.now) }
{
    let m = part.count();
    let r = part.record_at(0);
    let mut last = None;
    let mut i = part.child_from(1);
    // While, not for: the next child begins where the records of this one end.
    while i < m {
        last = later(source, r, last, part.record_at(i));
        i = part.child_from(i + 1);
    }
    last
}
