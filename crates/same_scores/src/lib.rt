// What a scoring call names of its tables, and the theorem that nothing else matters. Definitions and theorems only.
#![tactic(auto)]
