// What holds of the answers of the first planner (document 01, "The plan"; document 02, items 1, 5, 8 and 10): demand 3, one more wire,
// capture cycles, and the layouts that a client adds up. Laws, no code.
#![tactic(auto)]
