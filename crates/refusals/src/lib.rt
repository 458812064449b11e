// The refusals record by record: the rules of a record in their order, and the first that is broken.
#![tactic(auto)]

pub mod by_record;
