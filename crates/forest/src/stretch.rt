// A subtree is the stretch of records from its node. What is below a node is handed on as a part of the table.
ghost use Rattle.std.specs.Prelude.{◌≡◌, cond, ◌+◌, ◌-◌, ◌*◌, ◌≤◌, ◌<◌, length, drop};
ghost use Rattle.records.specs.Table.{record_bytes, count, part};
ghost use Rattle.lent.specs.Numbers.{word_limit};
ghost use Rattle.forest.specs.Forest.{stretch_end, Child, Reached};

use records::record::{RECORD_BYTES, depth_at};

// The first record after i that is not deeper than i, or the count of records.
pub fn stretch_end(t: &[u8], i: usize) -> usize
    requires { i < count t.now }
    ensures { (result ≡ stretch_end t.now i) × (i < result) × (result ≤ count t.now) }
{
    far_from(t, depth_at(t, i), i + 1)
}

// The stretch of record i: its record and what is below it.
pub fn stretch_of(t: &[u8], i: usize) -> &[u8]
    requires { i < count t.now }
    ensures { (result.now ≡ part t.now i (stretch_end t.now i))
        × (length result.now ≡ record_bytes * (stretch_end t.now i - i))
        × (i < stretch_end t.now i) × (stretch_end t.now i ≤ count t.now) }
{
    let e = stretch_end(t, i);
    let a = RECORD_BYTES * i;
    let b = RECORD_BYTES * e;
    &t[a..b]
}

// The rest of the table from record i on. Its first record's children are those of the stretch.
pub fn rest_from(t: &[u8], i: usize) -> &[u8]
    requires { i < count t.now }
    ensures { (result.now ≡ drop (record_bytes * i) t.now) × (length result.now ≡ length t.now - record_bytes * i) }
{
    let a = RECORD_BYTES * i;
    &t[a..]
}

// The first child of t's first record at or after record j, or the count of records. Most often it is record j.
pub fn child_from(t: &[u8], j: usize) -> usize
    requires { (1 ≤ j) × (j ≤ count t.now) }
    ensures { Child t.now j result }
{
    let m = t.len() / RECORD_BYTES;
    let k = depth_at(t, 0) + 1;
    if j == m {
        return m;
    }
    if depth_at(t, j) == k {
        return j;
    }
    let i = far_from(t, k, j);
    if i == m {
        return m;
    }
    if depth_at(t, i) < k {
        return m;
    }
    i
}

// The first record at or after j that is not deeper than k, or the count of records.
pub fn level_from(t: &[u8], k: usize, j: usize) -> usize
    requires { j ≤ count t.now }
    ensures { Reached t.now k j result }
{
    let m = t.len() / RECORD_BYTES;
    for i in j..m {
        if depth_at(t, i) <= k {
            return i;
        }
    }
    m
}

// The same, four records at a turn, where the step may be a far one.
pub fn far_from(t: &[u8], k: usize, j: usize) -> usize
    requires { j ≤ count t.now }
    ensures { Reached t.now k j result }
{
    let m = t.len() / RECORD_BYTES;
    let mut i = j;
    // While, not for: one record at a turn takes the four lists of a scope over their bar of instructions.
    while i + 4 <= m {
        if depth_at(t, i) <= k {
            return i;
        }
        if depth_at(t, i + 1) <= k {
            return i + 1;
        }
        if depth_at(t, i + 2) <= k {
            return i + 2;
        }
        if depth_at(t, i + 3) <= k {
            return i + 3;
        }
        i += 4;
    }
    level_from(t, k, i)
}

// How deep the record after one of depth d may be, in a flat reading: one below it where it is gone into, else no deeper than it.
pub fn reach_below(d: usize, into: bool) -> usize
    requires { d < word_limit }
    ensures { result ≡ cond into (d + 1) d }
{
    if into { d + 1 } else { d }
}
