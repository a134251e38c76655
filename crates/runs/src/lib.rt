// Runs over any step system: definitions and laws, no code.
#![tactic(auto)]
