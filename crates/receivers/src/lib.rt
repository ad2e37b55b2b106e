// The receiver's theorem for any receiver: specs/ states it and proofs/ proves it, once. There is no code here.
#![tactic(auto)]
