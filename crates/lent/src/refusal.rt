// What a question is refused for: a condition of the documents, which number it.
ghost use Rattle.std.specs.Prelude.{◌≡◌};
ghost use Rattle.lent.specs.Verdicts.{number_of, refused};

// The conditions, with the documents' numbers. `NoRoom` is the last of every question for a list: it has no room in the lent buffer.
#[derive(Clone, Copy, PartialEq, Eq)]
pub enum Condition {
    BadLength = 1,
    TooLong = 2,
    UnlistedKind = 3,
    Misplaced = 4,
    TooDeep = 5,
    BadSpan = 6,
    NoRoom = 7,
    NoRoot = 8,
    BadLine = 9,
    BadOffsets = 10,
    WrongParent = 12,
}

impl Condition {
    // Its number.
    pub fn number(self) -> u32
        ensures { result ≡ number_of self }
    {
        self as u32
    }
}

// A refusal: the condition that holds, and its detail.
#[derive(Clone, Copy)]
pub struct Refusal {
    pub condition: Condition,
    pub detail: u32,
}

// A refusal as the error of a question.
pub fn refused<T>(condition: Condition, detail: u32) -> Result<T, Refusal>
    ensures { result ≡ refused condition detail }
{
    Err(Refusal { condition, detail })
}
