// Structured code: definitions alone. `emit` writes trees, and the theorems on what records do go by them.
#![tactic(auto)]
