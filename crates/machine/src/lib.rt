// Document 01's attempt as a machine on the sums of each slot: theory only. Begin with specs/Machine (definitions) and proofs/ByHand (three small
// runs); then proofs/Picks (what it means for the keys) and specs/Order (any order of the keys). SumsByKey, SumsBounded and Loop are for proofs of
// code. What rests on a definition that a must-fail edit turns stands in proofs/.
#![tactic(auto)]
