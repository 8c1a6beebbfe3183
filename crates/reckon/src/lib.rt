// The sums of the public half, in code: `credits` has crediting and debiting, `clocks` the differences of clocks and the bits that an
// event earns, `timers` a device's timer in the table, `range` the range test. No function here has a secret among its parameters.
//
// Each contract is one equation with a definition of `ledger`, mostly one of the same name. A `requires` stands only on what proved code alone
// reaches, after the range test: a count within its size, a timer in range.
#![tactic(auto)]

pub mod clocks;
pub mod credits;
pub mod range;
pub mod timers;

pub use clocks::{clock_diff, event_bits, exceeds, next_timer};
pub use credits::{credit, debit};
pub use range::{ledger_in_range, others_in_range, timer_in_range};
pub use timers::{keep_timer, timer_of};
