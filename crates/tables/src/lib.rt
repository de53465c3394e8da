// What stands at a number of the tables, in definitions. It has no code.
#![tactic(auto)]
