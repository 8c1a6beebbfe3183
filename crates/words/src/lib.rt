// 32-bit words and bytes: what every crate above says and does with them.
//
// `turn` rotates a word; `halves` takes a number of two words apart; `adding` adds whole lists of words; `bytes` lays numbers out as bytes,
// little endian, and reads them back; `room` lays them into a room that is lent. A sum of two words that wraps is the library's `wrapping_add`, which is the definition `add` of
// specs/Words.antt.
//
// Each function is total: none has a `requires` but `lay_bytes`, which asks for a room that has place. Each contract is one equation with a definition
// of specs/, or with plain arithmetic. What a further crate needs to know of the definitions (bounds, round trips, a loop that adds word by word) is proved once in
// proofs/, and cited from there.
#![tactic(auto)]

pub mod adding;
pub mod bytes;
pub mod halves;
pub mod room;
pub mod turn;

pub use adding::add_words;
pub use bytes::{
    bytes_of_u16, bytes_of_u32, bytes_of_u64, swap_bytes, u16_of_bytes, u32_of_bytes, u64_of_bytes,
};
pub use halves::{high_half, low_half};
pub use room::{lay_bytes, put_bytes, put_u32};
pub use turn::rotate_left;
