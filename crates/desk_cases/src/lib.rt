// The desk cases of document 01, P1 to P14: one table, held to the definitions by one statement that the checker computes.
#![tactic(auto)]
