// What goes along through the search with a spending limit (document 02, item 7): "The best plan so far and the tries spent". The record
// has the best plan's time; its widths and bus numbers are in a buffer beside it. It goes down and up with every try, so it has two numbers
// and no more: that no plan is known and that the search was stopped are values of them that no plan and no count has.
ghost use Rattle.std.specs.Prelude.{◌≡◌, ◌≤◌, min};
ghost use Rattle.budget_search.specs.Steps.{budget_max, reaches, counts, halts, stops, keeps};

// The best time while no plan is known: 2⁶³, which no plan takes.
pub(crate) const NO_TIME: u64 = 9223372036854775808;

// The best time, and the tries spent, which are one more than the budget once a try was due with the budget spent.
#[derive(Clone, Copy)]
pub(crate) struct Progress {
    pub best: u64,
    pub tries: u64,
}

// A time that is no longer below the best time known.
pub(crate) fn is_reached(s: Progress, time: u64) -> bool
    ensures { result ≡ reaches s time }
{
    s.best <= time
}

// One try more.
pub(crate) fn count(s: Progress) -> Progress
    requires { s.tries ≤ budget_max }
    ensures { result ≡ counts s }
{
    Progress {
        tries: s.tries + 1,
        ..s
    }
}

// A try is due, and the budget is spent.
pub(crate) fn halt(s: Progress, budget: u64) -> Progress
    requires { budget ≤ budget_max }
    ensures { result ≡ halts budget s }
{
    Progress {
        tries: budget + 1,
        ..s
    }
}

// Whether a try was due with the budget spent.
pub(crate) fn is_stopped(s: Progress, budget: u64) -> bool
    ensures { result ≡ stops budget s }
{
    budget < s.tries
}

// The tries spent: of a search that was stopped, the budget.
pub(crate) fn tries_of(s: Progress, budget: u64) -> u64
    ensures { result ≡ min budget s.tries }
{
    budget.min(s.tries)
}

// A completed placement: the record is lent.
fn keep_if_better(s: &mut Progress, time: u64)
    ensures { s.new ≡ keeps s.old time }
{
    if !is_reached(*s, time) {
        s.best = time;
    }
}

// It goes in and comes out; in between it is lent.
pub(crate) fn completed(s: Progress, time: u64) -> Progress
    ensures { result ≡ keeps s time }
{
    let mut best = s;
    keep_if_better(&mut best, time);
    best
}
