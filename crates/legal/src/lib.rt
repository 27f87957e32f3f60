// After solving with answer 0 the table is legal again, as laws over the rules. No function.
#![tactic(auto)]
