// The limits of the planner with a spending limit (document 02, item 7): "B from 1 to 8 and a budget of tries", which is at most
// 1,099,511,627,776. It takes as many planned modules as a text can have.

// The most buses.
pub const BUS_LIMIT_MAX: u32 = 8;

// The most tries.
pub const BUDGET_MAX: u64 = 1099511627776;
