// The ChaCha20 generator in code: sixteen words that are lent, bytes xored onto its key, and a read that lays its blocks straight into the
// caller's room and changes the key behind them.
//
// `key` has the xoring, `reading` the counter, the blocks and the key change. The contracts are equations with the definitions of
// `keeper/specs/Generator.antt`, for every byte of the room and every word of the generator.
#![tactic(auto)]

pub mod key;
pub mod reading;

pub use key::onto_key;
pub use reading::generate;
