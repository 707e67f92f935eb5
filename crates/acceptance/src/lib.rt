// What acceptance means, by no order of refusals: theorems only, in proofs/.
#![tactic(auto)]
