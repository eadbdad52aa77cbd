// No code: that every public call, and every part of them that takes every input, has one outcome, as statements over the contracts of the calls in specs/ with their proofs in proofs/.
#![tactic(auto)]
