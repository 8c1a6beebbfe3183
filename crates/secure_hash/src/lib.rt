// The SHA-1 compression of FIPS 180-4: one block of 16 words onto the five words of a hash value. There is no padding here and
// no message length: the pools that stand on this have neither.
//
// `ring` has the message schedule, kept in 16 words, `steps` the step and four of them, `blocks` the compression and the initial
// hash value. Words are as FIPS 180-4 reads them, big endian; whoever has bytes or little-endian words turns them first.
//
// The contracts are equations with specs/Sha1.antt, for every hash value and every block. They do not say how the schedule is
// kept, so it can change without a caller seeing it.
#![tactic(auto)]

pub mod blocks;
mod ring;
mod steps;

pub use blocks::{compress, compress_in, initial_hash};
