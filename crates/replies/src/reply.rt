// A reply as one number: its low 32 bits are the refusal's number, 0 where the question is answered, and its high 32 bits the detail or
// the answer.
ghost use Rattle.std.specs.Prelude.{◌≡◌, ℕ};
ghost use Rattle.replies.specs.Reply.{packed, record_number, reply_number};

use lent::number::WORD_LIMIT;
use lent::refusal::Refusal;
use records::range::ABSENT;

// How many values a half of a reply has.
const HALF: u64 = WORD_LIMIT as u64;

// The low half of an answer.
const ANSWERED: u32 = 0;

// The high half where the answer is that there is none.
const NONE: u32 = ABSENT as u32;

// Two halves as one number.
pub fn packed(low: u32, high: u32) -> u64
    ensures { result ≡ packed low high }
{
    low as u64 + HALF * (high as u64)
}

// What an answer says in the high half.
pub trait HighHalf {
    ghost high_half: { Self → ℕ };

    fn high_half(self) -> u32
        ensures { result ≡ high_half self };
}

// Nothing more, where a table is admitted.
impl HighHalf for () {
    ghost high_half = { λ admitted. 0 };

    fn high_half(self) -> u32 {
        0
    }
}

// How many entries were written, or a record.
impl HighHalf for u32 {
    ghost high_half = { λ n. n };

    fn high_half(self) -> u32 {
        self
    }
}

// A record, or none.
impl HighHalf for Option<u32> {
    ghost high_half = { record_number };

    fn high_half(self) -> u32 {
        match self {
            Some(n) => n,
            None => NONE,
        }
    }
}

// The number of a question's reply.
pub fn reply_number<T: HighHalf>(reply: Result<T, Refusal>) -> u64
    ensures { result ≡ reply_number T.high_half reply }
{
    match reply {
        Ok(answer) => packed(ANSWERED, answer.high_half()),
        Err(refusal) => packed(refusal.condition.number(), refusal.detail),
    }
}
