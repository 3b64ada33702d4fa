// Theorems over the whole control: the history and the rule of demand 3, what was done, refusals, the table P. It holds no code of its own.
#![tactic(auto)]
