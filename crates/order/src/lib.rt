// The order of things: a theorem about the adapter's calls, with no code of its own.
#![tactic(auto)]
