// What the words `index`, `append`, `look` and `convert` of the program do, with their files; the words that `issue` is given; and what all its
// words share.
//
// `indexing`, `appending`, `looking` and `converting` have a word each. What a person writes is read by `numbers` (record numbers), `clocks` and
// `classes`; `asking` takes the clock and the classes of `issue` from the arguments. `names` has the words as they are given,
// and files' names; `files` brings files into memory, `replacing` writes them whole or not at all, `output` writes bytes, `messages` has what is
// said to a person, `status` what it all came to.
//
// No contract can say what is read or written. What is written comes from functions that have one: the files from `index::file`,
// `index::append_filed` and `convert::nk_convert`, the lines of a look-up from `looking::tell_line`, whose text specs/Looks.antt has, the sums
// from `listing::sums`.
#![tactic(auto)]

mod appending;
mod asking;
mod classes;
mod clocks;
mod converting;
mod files;
mod indexing;
mod looking;
mod messages;
mod names;
mod numbers;
mod output;
mod replacing;
mod status;

pub use appending::append;
pub use asking::{LONGEST_FIELD, check_classes, class_at, clock_at};
pub use converting::convert;
pub use files::{MOST, bring};
pub use indexing::index;
pub use looking::look;
pub use messages::{StandardError, Told, complain};
pub use names::word_at;
pub use output::{Reader, write};
pub use status::{Status, ended, judge, tell, worse};
