// Bracket matching: which openers are left.
ghost use Rattle.std.specs.Prelude.{◌≡◌, ℕ, List, [], map, reverse, ◌+◌, ◌*◌, ◌≤◌, ◌<◌, length};
ghost use Rattle.records.specs.Table.{count, records};
ghost use Rattle.forest.specs.Forest.{kids};
ghost use Rattle.forest.specs.Parts.{size};
ghost use Rattle.conditions.specs.Conditions.{most_records};
ghost use Rattle.table.specs.Rules.{rules};
ghost use Rattle.lent.specs.Lists.{Written, Answers};
ghost use Rattle.brackets.specs.Brackets.{opener_row, openers_left};
ghost use Rattle.brackets.specs.inner.BracketStack.{stack_of, stepped_by, stepped_over, left_by, Stacks, unpacked};

use conditions::whole::MOST_RECORDS;
use forest::part::Part;
use forest::stretch::stretch_of;
use lent::list::put_entry;
use lent::number::NUMBER_BYTES;
use lent::refusal::{Condition, Refusal, refused};
use records::kinds::{CLOSING_CURLY, CLOSING_ROUND, OPENING_CURLY, OPENING_ROUND};
use records::record::count_of;
use std::marker::Model;
use table::check::check;

// One step of the bracket stack, for record `number` of this kind. The first n elements are the stack, its top last; each is an opener's record number and
// its shape.
fn stack_step(stack: &mut [u16], n: usize, kind: usize, number: usize) -> usize
    requires { (n < length stack.old) × (number < most_records) }
    ensures { (stack_of stack.new result ≡ stepped_by (stack_of stack.old n) kind number) × (result ≤ n + 1) }
{
    match kind {
        OPENING_ROUND..=OPENING_CURLY => {
            stack[n] = (4 * number + (kind - OPENING_ROUND)) as u16;
            n + 1
        }
        CLOSING_ROUND..=CLOSING_CURLY => {
            if n == 0 {
                return n;
            }
            let top = usize::from(stack[n - 1]);
            if top % 4 == kind - CLOSING_ROUND {
                n - 1
            } else {
                n
            }
        }
        _ => n,
    }
}

// Takes the records of a part of the table one after the other; a node does nothing to the stack. Returns how many are on it.
fn collect_brackets(part: &Part, stack: &mut [u16], n: usize) -> usize
    requires { (n ≤ part.now.base) × (most_records ≤ length stack.old) }
    ensures { (stack_of stack.new result ≡ stepped_over (stack_of stack.old n) part.now.bytes.now part.now.base (size part.now))
        × (result ≤ n + size part.now) }
{
    let mut top = n;
    for i in 0..part.count() {
        top = stack_step(stack, top, part.kind_at(i), part.base + i);
    }
    top
}

// The stack after a table's tree: each child of record 0 is handed on as a part. Returns how many openers are on it.
pub fn stack_left(table: &[u8], stack: &mut [u16]) -> usize
    requires { (0 < count table.now) × (count table.now ≤ most_records) × (most_records ≤ length stack.old) × Stacks table.now }
    ensures { (stack_of stack.new result ≡ left_by [] (kids (records 0 table.now))) × (result ≤ count table.now) }
{
    let m = count_of(table);
    let mut top = 0;
    let mut i = 1;
    // While, not for: the next child begins where the records of this one end.
    while i < m {
        let part = Part {
            bytes: stretch_of(table, i),
            base: i,
        };
        top = collect_brackets(&part, stack, top);
        i += part.count();
    }
    top
}

// A bracket stack with its room: the first so many elements of an array.
#[derive(Drop)]
pub struct BracketStack {
    slots: [u16; MOST_RECORDS],
    len: usize,
}

// Clauses see the stack, its top first.
impl Model for BracketStack {
    ghost Value = { List ℕ };

    ghost view = { λ s. stack_of s.slots s.len };

    ghost invariant = { λ s. s.len ≤ most_records };
}

impl BracketStack {
    pub fn new() -> Self
        ensures { result ≡ [] }
    {
        BracketStack {
            slots: [0; MOST_RECORDS],
            len: 0,
        }
    }

    // Becomes the stack after a table's tree. It is lent, since 8 KiB that are returned would be copied.
    pub fn fill(&mut self, table: &[u8])
        requires { (0 < count table.now) × (count table.now ≤ most_records) × Stacks table.now }
        ensures { (self.new ≡ left_by [] (kids (records 0 table.now))) × (length self.new ≤ count table.now) }
    {
        let n = stack_left(table, &mut self.slots);
        self.len = n;
    }

    // The openers on the stack, the lowest first.
    pub fn openers(&self) -> &[u16]
        ensures { (result.now ≡ reverse self.now) × (length self.now ≤ most_records) }
    {
        &self.slots[..self.len]
    }
}

// Writes the record numbers of the openers of a stack, the lowest first.
fn put_openers(stack: &BracketStack, out: &mut [u8])
    ensures { Written opener_row (map unpacked (reverse stack.now)) out.old 0 out.new (4 * length stack.now) }
{
    let mut at = 0;
    for top in stack.openers() {
        at = put_entry(out, at, &[usize::from(*top / 4)]);
    }
}

// Lists the openers left of a table that is admitted.
fn list_openers(table: &[u8], out: &mut [u8]) -> Result<u32, Refusal>
    requires { (0 < count table.now) × (count table.now ≤ most_records) × Stacks table.now }
    ensures { Answers [] opener_row
        (openers_left table.now) out.old result out.new }
{
    let mut stack = BracketStack::new();
    stack.fill(table);
    let n = stack.openers().len();
    if out.len() < NUMBER_BYTES * n {
        return refused(Condition::NoRoom, n as u32);
    }
    put_openers(&stack, out);
    Ok(n as u32)
}

// The question: the openers left, in order, a record number each.
pub fn openers_left(table: &[u8], source: &[u8], out: &mut [u8]) -> Result<u32, Refusal>
    ensures { Answers (rules table.now (length source.now) 0) opener_row
        (openers_left table.now) out.old result out.new }
{
    check(table, source)?;
    list_openers(table, out)
}
