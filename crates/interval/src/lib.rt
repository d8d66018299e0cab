// The interval in which the exact sum lies. No code.
#![tactic(auto)]
