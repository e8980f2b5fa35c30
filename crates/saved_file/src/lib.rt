// A saved adapter: definitions and their laws, with no code of its own.
#![tactic(auto)]
