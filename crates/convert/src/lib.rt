// Journals of version 1 written as version 2, whose events have two bytes for the device: `nk_convert`.
//
// `judging` goes over the journal once, and finds out all that the refusals need; `converting` has the refusals in their order, and writes the
// outcome record by record. Nothing is copied but into the room, and nothing is written before the last test has passed.
//
// The call takes whatever it is given. Its contract is two equations with specs/Converting.antt: what is answered, and what each byte of the
// room then is, refusals included. That the outcome is a good journal of version 2, with the same start bytes and the same records, one byte
// longer for each event, is proved in proofs/ConvertedJournals.antt.
#![tactic(auto)]

mod converting;
mod judging;

pub use converting::{Converted, nk_convert};
