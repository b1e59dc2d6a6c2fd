//! Requests for memory that are refused.
//!
//! The library that `bin/faults` starts the program with knows two requests that no program makes otherwise. Without it both
//! fail, as any request of that size.
use std::alloc::Global;
use std::hint::black_box;

/// A request of so many bytes and n has the n-th request from there on refused, that one alone. It fails.
const REFUSE: usize = 1 << 60;

/// A request of so many bytes ends that, and succeeds exactly where a request was refused.
const END: usize = 1 << 61;

/// Whether a request of so many bytes succeeds.
fn is_granted(alloc: Global, bytes: usize) -> bool {
    match Vec::<u8>::with_capacity(alloc, bytes) {
        Ok(held) => black_box(held).capacity() > 0,
        Err(_) => false,
    }
}

/// Has the n-th request from here on refused, that one alone.
pub fn refuse(alloc: Global, nth: usize) {
    let _ = is_granted(alloc, REFUSE.saturating_add(nth));
}

/// Ends that. Whether a request was refused.
pub fn was_refused(alloc: Global) -> bool {
    is_granted(alloc, END)
}
