// Worked calls: proofs/Computed.antt has the checker compute one whole call of each kind from the definitions. It stands apart from
// `keeper` because computing 30 compressions takes longer than proving what follows from the definitions.
#![tactic(auto)]
