// No code: the demands on the model and the paper's bench cases, as statements in specs/ with their proofs in proofs/.
#![tactic(auto)]
