// The two pools' words, as rules: mixing bytes in and extracting bytes, once over the shape. A pool never sees its count: what may be
// taken is decided in `ledger`, and a pool hands over as many bytes as it is told.
//
// specs/Mixing.antt and specs/Extracting.antt have the paper's section on pools; proofs/Extracted.antt has the laws of a pool that
// theorems about calls need, together. The code is in `mixer`.
#![tactic(auto)]
