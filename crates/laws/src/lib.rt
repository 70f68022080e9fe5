// No code: the laws that the toolchain's library lacks, in proofs/.
#![tactic(auto)]
