// The two pools' words in code: mixing bytes in and extracting bytes, one function for both sizes, on words that are lent and never
// copied. `pools` has the pool that is lent, `mixing` the byte and the run of bytes, `extracting` the filling of a room.
//
// Each contract gives the words, the spot and every byte of the room at exit, by the definitions of `pool` at the shape that the number
// of words tells (specs/Sizes.antt). What a pool is asked to be when it is made, 128 or 32 words with a spot inside them, which the range
// test gives, it stays.
#![tactic(auto)]

pub mod extracting;
pub mod mixing;
pub mod pools;

pub use pools::Pool;
