// Laws of definitions below that no proof uses any more, kept because they were stated: theory, no code.
#![tactic(auto)]
