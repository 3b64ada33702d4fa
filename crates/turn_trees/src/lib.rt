// Theorems over the crates engine and grammar: what a line's turn does is told by its tree, wherever its tokens stand. It holds no code of its own.
#![tactic(auto)]
