// Registers, spills and blocks as the code's trees see them, and what each form of record does to them.
#![tactic(auto)]
