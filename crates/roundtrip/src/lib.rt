// The round trip of the description file: laws only, no code.
#![tactic(auto)]
