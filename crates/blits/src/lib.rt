// One blit by itself, whatever adapter runs it: definitions and laws of its steps.
#![tactic(auto)]
