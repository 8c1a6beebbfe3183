// The calls, as functions on the keeper's record, which is lent. Each goes in two strokes: `decide` makes a plan from public numbers, or says why the
// call is refused, and the plan is carried out on the record: its ledger becomes the record's, its bytes go in and out, and a pool's spot moves on. A
// refusal is carried out by storing the ledger as it is, and returning its number: so there is no `?`, which would hand an `Err` on.
//
// The contract of each is one equation with specs/Promise.antt over the whole record, the answer and the output room, for all inputs.
//
// What is made of several reads, above, takes `others_in_range` and `put_back` from here: it tests and decides once.
//
// `answers` has what a refusal gives back, `range` what is decided from besides the ledger; `making` makes a keeper, `feeding` has the calls that bring
// bytes, `reading` those that take some.
#![tactic(auto)]

mod answers;
pub mod feeding;
pub mod making;
mod range;
pub mod reading;

pub use answers::put_back;
pub use feeding::{event_on, interrupt_on, seed_on, write_on};
pub use making::{fresh_keeper, fresh_ledger, make_on};
pub use range::others_in_range;
pub use reading::{blocking_read_on, read_on};
