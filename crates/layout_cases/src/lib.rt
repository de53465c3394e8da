// The dumps of docs/LAYOUT.md and docs/IMAGE.md, held to the definitions by evaluation. No code.
#![tactic(auto)]
