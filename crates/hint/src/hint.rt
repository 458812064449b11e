// Bracket matching: which of the openers left a message speaks of.
ghost use Rattle.std.specs.Prelude.{◌≡◌, ◌≤◌, ◌<◌, length};
ghost use Rattle.lent.specs.Lists.{reply};
ghost use Rattle.records.specs.Table.{count};
ghost use Rattle.conditions.specs.Conditions.{most_records};
ghost use Rattle.table.specs.Rules.{verdict};
ghost use Rattle.brackets.specs.Brackets.{stack_left, holding, hint_of};
ghost use Rattle.brackets.specs.inner.BracketStack.{Stacks, last_by, hint_by};

use brackets::bracket_matching::BracketStack;
use lent::refusal::Refusal;
use table::check::check_message;

// A message holds a word.
fn holds(word: &[u8], message: &[u8]) -> bool
    requires { 0 < length word.now }
    ensures { result ≡ holding word.now message.now }
{
    message.windows(word.len()).any(|part| part == word)
}

// The opener of this shape, 0 to 2, that is nearest to the top of a stack.
fn last_opener(stack: &BracketStack, shape: usize) -> Option<u32>
    ensures { result ≡ last_by shape stack.now }
{
    let top = stack
        .openers()
        .iter()
        .rev()
        .find(|top| usize::from(**top) % 4 == shape)?;
    Some(u32::from(*top / 4))
}

// The opener that a message speaks of, on a stack.
fn hint_on(stack: &BracketStack, message: &[u8]) -> Option<u32>
    ensures { result ≡ hint_by message.now stack.now }
{
    if holds(b"expected )", message) {
        return last_opener(stack, 0);
    }
    if holds(b"expected ]", message) {
        return last_opener(stack, 1);
    }
    if holds(b"expected }", message) {
        return last_opener(stack, 2);
    }
    None
}

// The hint for a table that is admitted.
fn find_hint(table: &[u8], message: &[u8]) -> Option<u32>
    requires { (0 < count table.now) × (count table.now ≤ most_records) × Stacks table.now }
    ensures { result ≡ hint_of message.now (stack_left table.now) }
{
    let mut stack = BracketStack::new();
    stack.fill(table);
    hint_on(&stack, message)
}

// The question: the opener that an `expected ..` message speaks of.
pub fn bracket_hint(table: &[u8], source: &[u8], message: &[u8]) -> Result<Option<u32>, Refusal>
    ensures { result ≡ reply (verdict table.now (length source.now) (length message.now))
        (hint_of message.now (stack_left table.now)) }
{
    check_message(table, source, message)?;
    Ok(find_hint(table, message))
}
