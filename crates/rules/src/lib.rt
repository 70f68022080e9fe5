// No code: the rules of printing and reading as definitions, in specs/, with worked examples and the tables' rule, in proofs/.
#![tactic(auto)]
