// The text of a record that was looked up, and of an index's sums.
//
// Behind the number of a record stand 0, its place, its kind and its fields in the journal's order, all in decimal with one space before
// each; where it carries bytes, a space and the bytes in lowercase hexadecimal; a newline. Behind a number that no record has stands 18, with
// a space before it, and a newline. The sums are three lines: `records` and how many there are, `kinds` and how many there are of each of
// the six, `reads` and the sum of the lengths that reads ask for.
//
// Each contract names one piece of text of specs/Listing.antt, for all numbers, records and bytes: it is added to a text, behind what is there,
// and all other bytes of the room stay. What is asked is that the room still holds any piece of the kind: `LONGEST_FOUND` and two more for each
// byte, `LONGEST_GONE`, `LONGEST_SUMS`.
//
// `row` has numbers with a space before each, `named` a line that begins with a name; `looked` and `totals` have the pieces.
#![tactic(auto)]

pub mod looked;
mod named;
mod row;
pub mod totals;

pub use looked::{LONGEST_FOUND, LONGEST_GONE, found, gone};
pub use totals::{LONGEST_SUMS, sums};
