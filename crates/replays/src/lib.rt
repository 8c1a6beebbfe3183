// Whole journals that the checker computes to their transcripts, from the definitions alone. Apart from `replay`, because computing takes longer than
// proving what follows from the definitions, and apart from `worked`, which stands on no code.
#![tactic(auto)]
