// The calls of the C interface: a thin function for each, whose contract names the request that it serves, with its formula. C hands over
// numbers, so p, c, row and block come one by one; and what is done for both formulas has two names there, so it stands twice.
#![tactic(auto, using(crate::proofs::Answered::to_caller, overlap::proofs::Placed::answers_alone))]

pub mod answers;
pub mod books;
pub mod close;
pub mod ledgers;
pub mod overlaps;
pub mod quotes;
pub mod sheets;
pub mod work;
