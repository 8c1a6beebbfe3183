// The ChaCha20 block function of RFC 7539: sixteen words in, sixteen words out, and their 64 bytes.
//
// `rounds` has the quarter round, on four words, and the double round, on the state by value; `blocks` works a state through twenty rounds,
// adds it to its start, and lays the sums into a room as bytes. Every index is a literal once the small functions are inlined, and there
// is no branch on a state's words.
//
// The contracts are equations with specs/Chacha.antt, for every state and every room. `quarter` and `block` are exported for the
// published vectors.
#![tactic(auto)]

pub mod blocks;
pub mod rounds;

pub use blocks::{block, lay_block};
pub use rounds::{Four, quarter};
