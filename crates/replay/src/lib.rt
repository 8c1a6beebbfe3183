// A journal run through a keeper, a line of the transcript at a time.
//
// `running` runs one record: it makes the call that the record stands for, with the bytes of a write or a seed as a part of the journal
// itself. `turns` takes one turn: it runs what stands at a position and writes its line into a lent room, or writes the last line.
//
// The keeper's record is lent, as in `steps`. specs/Whole.antt has the whole transcript as a function of
// the journal's bytes; proofs/ shows that the lines which turns write one after another are it.
#![tactic(auto)]

mod running;
pub mod turns;

pub use running::OUT_ROOM;
pub use turns::{Turn, take_turn};
