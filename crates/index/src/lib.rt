// The index: a summary beside a journal. It has the byte places of records 0, 64, 128 and so on, how many records there are of each kind, and
// the sum of the lengths that reads ask for, so that a record is found by its number without counting from the front.
//
// `summary` has the index as a value and `summing` adds records to it; `fresh` works it out from a journal in one pass, `filing` lays it
// out as a file, `at_hand` has the two forms in which a call is given one. `appending` appends bytes to a journal and brings its index
// along, `looking` looks records up: on a room of 61,440 bytes, each on an index by value (`nk_append`, `nk_look`) and on an index that is
// a file (`append_filed`, `look_filed`).
//
// Each exported function takes whatever it is given, and its contract is an equation with specs/Calls.antt: what is answered, what each
// byte of a room then is, and for every refusal that nothing moved. That the updated index is the one worked out afresh is proved in
// proofs/Updating.antt and proofs/Longer.antt, that looking up gives what counting gives in proofs/Counting.antt, what the room then holds
// in proofs/Kept.antt.
#![tactic(auto)]

mod appending;
mod at_hand;
mod filing;
mod fresh;
mod looking;
mod summary;
mod summing;

pub use appending::{Appended, append_filed, nk_append};
pub use filing::{FILE_MOST, file};
pub use fresh::{Fresh, nk_fresh_index, work_out};
pub use looking::{NUMBERS, look_filed, nk_look};
pub use summary::{Index, KINDS, PLACES};
