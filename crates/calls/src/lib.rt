// The calls as values, one for each request: definitions alone. No code.
#![tactic(auto)]
