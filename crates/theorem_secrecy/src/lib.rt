// Demand 3, over whole lists of calls on the frame: specs/Runs.antt has the claim, and proofs/Runs.antt the theorem `secret`.
#![tactic(auto)]
