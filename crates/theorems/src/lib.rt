// No code: what is proved of the rules alone, in proofs/.
#![tactic(auto)]
