// Theorems over every call: a sound state stays sound, from a load on 22 never arises, and which codes a call answers. It holds no code of its own.
#![tactic(auto)]
