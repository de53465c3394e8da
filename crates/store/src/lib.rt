// The object store (the paper's desk): the twelve steps of an open, close and set_read_only, and the model that they are
// compared with (the paper's book). So far their definitions, the worked cases and the theorem about every sequence of
// calls, and no code.
#![tactic(auto)]
