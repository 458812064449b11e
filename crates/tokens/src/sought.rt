// What a reading of tokens seeks, and what it carries.

// What is sought: the last token at an offset, or the index of the argument there.
// An enum, not a trait: counts, enters and turn ask it in a match of two arms each, and a trait's ghost members and laws would be longer.
#[derive(Clone, Copy)]
pub enum Sought {
    LastToken,
    ArgumentIndex,
}

// What was read so far, of either: the last two tokens by their records' numbers, and the argument's index once a `(` was met.
#[derive(Clone, Copy)]
pub struct Swept {
    pub last: Option<usize>,
    pub before: Option<usize>,
    pub arguments: Option<usize>,
}
