// Theorems over loading: which texts are taken and with what the others are refused, what a text that is taken makes, and what its beats do. It holds no code of its own.
#![tactic(auto)]
