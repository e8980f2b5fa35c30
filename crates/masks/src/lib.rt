// Which nibbles a call wrote: claims about the answers, with no code of its own.
#![tactic(auto)]
