// What the planner with a spending limit found, put into a lent buffer as its bytes. Without the room nothing is put, and the answer is 0.
ghost use Rattle.c_forms.specs.Words.{PutFront};
ghost use Rattle.c_forms.specs.BudgetForm.{budget_length, budget_bytes};

use super::form::{Form, put_each, put_front};
use super::plan_form::PLAN_BYTES;
use super::word::{LONG_BYTES, WORD_BYTES};
use plan_record::BusPlan;

pub const BUDGET_BYTES: usize = WORD_BYTES * 2 + LONG_BYTES + PLAN_BYTES;

// Whether the search was finished, whether a plan is known, the tries and the plan.
#[derive(Clone, Copy)]
struct Found {
    finished: bool,
    known: bool,
    tries: u64,
    plan: BusPlan,
}

impl Form for Found {
    ghost BYTES = { budget_length };

    const BYTES: usize = BUDGET_BYTES;

    ghost bytes = { λ f. budget_bytes f.finished f.known f.tries f.plan };

    fn put(self, buf: &mut [u8], at: usize) -> usize {
        let w = [u64::from(self.finished), u64::from(self.known)];
        let a = put_each(buf, at, &w);
        let b = little_endian::put_u64(buf, a, self.tries);
        self.plan.put(buf, b)
    }
}

pub fn budget_bytes(finished: bool, known: bool, tries: u64, p: BusPlan, buf: &mut [u8]) -> usize
    ensures { PutFront budget_length (budget_bytes finished known tries p) buf.old buf.new result }
{
    let f = Found {
        finished,
        known,
        tries,
        plan: p,
    };
    put_front(f, buf)
}
