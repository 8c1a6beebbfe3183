// The keeper: the record that the terminal lends, its six calls, and the making of a keeper.
//
// specs/ tells each call twice. Narrative has it in the paper's order, step by step; Obey has it in two strokes, where `ledger`
// decides from public numbers alone and the secrets obey. proofs/Same.antt shows that both are one function of keeper and call, so a
// contract cites Narrative, and whatever is public is read off the plan. The other files of proofs/ are the customer's demands.
// The code comes on top of these definitions.
#![tactic(auto)]

use ledger::sizes::{BLOCKING_WORDS, DEVICES, FAST_WORDS, GENERATOR_WORDS, INPUT_WORDS};

// The record. First what is public: the ledger, and one timer a device, its last clock, its d1, its d2 and how many of its events were kept,
// up to three. Then what is secret, but for generator words 0 to 3. The layout is C's (include/nk.h): a timer's four numbers stand in four arrays.
#[repr(C)]
#[derive(Drop)]
pub struct Keeper {
    pub ledger: ledger::Ledger,
    pub clocks: [u32; DEVICES],
    pub firsts: [i64; DEVICES],
    pub seconds: [i64; DEVICES],
    pub came: [u8; DEVICES],
    pub input: [u32; INPUT_WORDS],
    pub blocking: [u32; BLOCKING_WORDS],
    pub fast: [u32; FAST_WORDS],
    pub generator: [u32; GENERATOR_WORDS],
}
