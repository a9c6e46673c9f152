// Every record that the trees of an order hold is well formed: the machine's run over the bytes is the run over the instructions.
#![tactic(auto)]
