// What a call is refused with, and what it then answers and leaves: definitions and their laws.
#![tactic(auto)]
