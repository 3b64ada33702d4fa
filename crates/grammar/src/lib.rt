// The grammar of documents 01 and 02 as trees, on which the definition of `load` stands, and theorems over the crate checking: its reading of tokens is that grammar, both ways. It holds no code of its own.
#![tactic(auto)]
