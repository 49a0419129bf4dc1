// The proved table (docs/RULES.md, Ten worked values): specs/Table.antt has its rows, and proofs/Holds.antt the one statement that each of them holds of the definitions.
#![tactic(auto)]
