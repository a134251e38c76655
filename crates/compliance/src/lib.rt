// Definition 3.1 of source 001 and the laws of the rules: definitions and theorems, no code.
#![tactic(auto)]
