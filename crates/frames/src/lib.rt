// Whole frames and a stopped copper: claims about beam steps, with no code of its own.
#![tactic(auto)]
