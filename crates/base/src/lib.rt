// The words of the definitions under one name. It has no code.
#![tactic(auto)]
