// Sealing and opening as definitions and theorems: specs/ states them and proofs/ proves them, for the rooms that seal and open. There is no code here.

#![tactic(auto)]
