// The limits of the first planner (document 01, "Refusal numbers", 8 and 10), which are other numbers than the places of a plan record.
use plan_record::MODULE_PLACES;
use plan_search::ROW_PLACES;

// The most buses.
pub const LIMIT_MAX: u32 = 3;

// The most planned modules.
pub const PLANNED_MAX: usize = 12;

// The places of a table of times, whichever planner asks for it: a row for each module of a plan record.
pub const TABLE_PLACES: usize = MODULE_PLACES * ROW_PLACES;
