// Demand 3 over any list of calls: what it says of a session, that it settles what is seen, and what meets it. No code.
#![tactic(auto)]
