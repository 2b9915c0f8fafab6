// No code: the statements in specs/ and their proofs in proofs/ speak of the definitions that the contracts of `precheck` and `run` cite.
#![tactic(auto)]
