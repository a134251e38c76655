// What is promised, in one place: demands 1, 2 and 3, with a theorem each, over the crates' own definitions (specs/Promises.antt). No code.
#![tactic(auto)]
