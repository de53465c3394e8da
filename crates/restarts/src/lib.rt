// Demand 3 across restarts from saved images: definitions and theorem, no code.
#![tactic(auto)]
