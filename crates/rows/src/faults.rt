//! Rows that are answered while requests for memory are refused.
//!
//! Each request that a row with a star makes is refused, that one alone: the answer has to be out of memory, in the form that the call
//! has for it. Then it is answered once more, and has to be the row's. The call of an unaided row makes no request (`asked`).
use crate::judging::{Layers, Row, Tally, answered, say_fault, say_found};
use crate::memory::{refuse, was_refused};
use crate::said::Said;
use std::alloc::Global;

/// More requests than a row makes.
const REQUESTS: usize = 10_000;

/// Whether a request for memory is refused where that is asked for, and no other.
pub fn are_refused(alloc: Global) -> bool {
    refuse(alloc, 1);
    let is_refused = Box::new(alloc, 0u8).is_err();
    let was_one = was_refused(alloc);
    refuse(alloc, 1);
    is_refused && was_one && !was_refused(alloc)
}

/// Answers a row with the n-th request refused, and says what is wrong with that. Whether there was such a request.
fn judge_refused<L: Layers>(fault: &mut Said, row: Row<'_>, nth: usize) -> bool {
    refuse(fault.alloc, nth);
    let it = answered::<L>(fault.alloc, row);
    let was_refused = was_refused(fault.alloc);
    if !was_refused {
        say_fault(fault, row, &it);
    } else if !it.said.is_lacking {
        fault.push(", request ");
        fault.shown(&nth);
        fault.push(" refused");
        say_found(fault, row, it.said.text.as_str());
    }
    was_refused
}

/// Answers a row with each request refused, one at a time, and says what is wrong with that.
pub fn judge_starred<L: Layers>(fault: &mut Said, tally: &mut Tally, row: Row<'_>) {
    for nth in 1..REQUESTS {
        if !judge_refused::<L>(fault, row, nth) {
            if nth == 1 {
                fault.push(": it makes no request for memory");
            }
            return;
        }
        tally.requests = tally.requests.saturating_add(1);
    }
    fault.push(": it makes too many requests");
}
