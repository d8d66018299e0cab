// Laws of numbers that the other crates share. No code.
#![tactic(auto)]
