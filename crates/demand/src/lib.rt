// Demand 3 as one theorem, and the starred examples as one lemma. The room has definitions and proofs, and no functions.
#![tactic(auto)]
