// Rows of document 01's table of refusals as data: limits of counts and room, tests of tables, and what a call that tests
// several in order refuses, in plain terms; and what an answer that only accepts or refuses says. Definitions and laws only.
#![tactic(auto)]
