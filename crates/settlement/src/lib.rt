// Demand 3 and the marked figures: theorems about the definitions. No code.
#![tactic(auto)]
