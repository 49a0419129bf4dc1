// What is known is true, over whole lists of calls on the frame: specs/Truth.antt has the claim, proofs/Truth.antt the theorem `truth`, and proofs/Console.antt what it means for the console.
#![tactic(auto)]
