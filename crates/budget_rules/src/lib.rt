// The search with a spending limit and what its budget decides: definitions and laws, for any number of buses and modules.
#![tactic(auto)]
