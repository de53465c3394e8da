// Lists, as the tables are in definitions and proofs: tests, counts, searches and the laws about them.
#![tactic(auto)]
