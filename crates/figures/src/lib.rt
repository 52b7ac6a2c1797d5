// Document 01's starred figures, as one table under one proof: definitions and that proof alone.
#![tactic(auto)]
