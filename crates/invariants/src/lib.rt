// The machine's invariants, as laws over the rules: what each part of the machine keeps, and that every run ends. No function.
#![tactic(auto)]
