// What each call will do, decided in code from public numbers alone: the ledger by value, one device's timer, the call's public fields.
// No function here has a secret among its parameters, and none takes the timer table: what is passed is one device's numbers.
//
// `plans` has a function for each definition of `ledger/specs/Plans.antt`; those named `decide_` are for code above, take any values, and
// answer 17 where something is out of range. `work` has what a plan costs and answers.
#![tactic(auto)]

pub mod plans;
pub mod work;

pub use plans::{
    decide_blocking_read, decide_event, decide_interrupt, decide_read, decide_seed, decide_write,
};
pub use work::{answer_of, compressions_run, stream_blocks};
