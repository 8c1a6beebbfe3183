// Message numbers issued behind a journal: the journal is run on a fresh keeper, and the desk then issues at a clock, a line for each number.
//
// `running` runs a journal on a keeper's record, of which the contract says that it is then the very keeper that the journal's transcript
// leaves. `lines` issues one number on that keeper and a desk, and lays its line into a room. Nothing that was issued before is remembered: a desk
// is no part of a journal, so each run begins with an empty one.
//
// specs/Whole.antt has the whole text as a function of the journal's bytes, the clock and the class fields. proofs/AllLines.antt shows that it is what
// these pieces give one behind another, and that any two of 65 numbers that are issued for it one after another differ.
#![tactic(auto)]

pub mod lines;
mod running;

pub use lines::{LONGEST_ISSUED, number_line};
pub use running::replay_on;
