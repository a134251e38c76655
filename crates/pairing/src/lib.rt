// From tables of a pair to the verdict on the pair: theory, no code.
#![tactic(auto)]
