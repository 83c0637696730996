//! How requests for memory are refused. A library that is loaded before the program,
//! `tools/refuse.c`, takes requests of some sizes, which nothing else asks for, as orders. Where it
//! is not loaded, these are requests as others are, and nothing is refused.

use std::alloc::{AllocError, Global};

/// The size of the order that ends what was ordered. Behind it are those of the orders that refuse
/// one request, by its number, and then those of the orders that refuse all from one on.
const END: usize = 1_048_577;

/// The greatest number of a request that can be refused.
pub const MOST: usize = 65_535;

/// Asks for so many bytes, and answers whether they were given.
fn order(alloc: Global, size: usize) -> bool {
    let bytes: Result<Vec<u8>, AllocError> = Vec::with_capacity(alloc, size);
    bytes.is_ok()
}

/// From now on the request of this number is refused.
pub fn refuse(alloc: Global, number: usize) {
    order(alloc, END.saturating_add(number));
}

/// From now on the request of this number is refused, and every one behind it.
pub fn refuse_from(alloc: Global, number: usize) {
    order(alloc, END.saturating_add(MOST).saturating_add(number));
}

/// From now on no request is refused. Answers whether one was.
pub fn end(alloc: Global) -> bool {
    !order(alloc, END)
}
