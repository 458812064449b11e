// What is lent to a question: bytes to read numbers in, a buffer to list entries in; and the verdict, which says whether it is touched.
#![tactic(auto)]

pub mod list;
pub mod number;
pub mod refusal;
