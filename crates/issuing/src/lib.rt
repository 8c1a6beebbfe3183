// The desk call on the keeper's record and the desk, both lent, as the calls of `steps` are on the record.
//
// What is public decides first, once for all draws: the range test, the desk's count, the class field, and the plan of a generator read. Then
// numbers are drawn from the generator alone, and each is compared with all that is remembered in one pass that runs to its end whatever it
// met: its steps and its addresses tell how many draws repeated, which the answer tells too, and nothing else of what was drawn or is remembered.
//
// The contract of `issue_on` is one equation with `issue` of `desk` over the whole record, the desk and what is handed back, for all inputs. specs/
// has runs of what the code leaves, and proofs/ the customer's demands of them.
#![tactic(auto)]

mod classes;
mod compare;
mod draw;
pub mod issue;
mod remember;

pub use classes::Class;
pub use issue::issue_on;
