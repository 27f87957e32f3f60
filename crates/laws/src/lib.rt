// Laws of the rules: what a table that keeps the records section's rules gives to whoever reads it. No function.
#![tactic(auto)]
