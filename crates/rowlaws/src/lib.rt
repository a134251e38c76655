// A row of two states, as it is worked out from both sides' messages, holds the messages that are possible there: theory, no code.
#![tactic(auto)]
