// Theorems over print and load: a print is taken again and gives the same set, and printing that the same bytes; a set from text prints in no more bytes than a text may have. It holds no code of its own.
#![tactic(auto)]
