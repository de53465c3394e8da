// Consistency of the tables (the paper's soundness): a test that computes and a record of statements, proved equal. The
// code that decides it is the crate `audit`.
#![tactic(auto)]
