// A list of calls on one frame, of which the theorems of the crates beside this one speak: specs/Calls.antt. That it does not turn on the engines that its calls choose: proofs/Engines.antt.
#![tactic(auto)]
