//! Trees held so that letting go of one is one call, whatever its form.

use record_core::NoMemory;
use std::alloc::Global;

/// A value in a box.
pub fn boxed<T: Drop>(alloc: Global, made: Result<T, NoMemory>) -> Result<Box<T>, NoMemory> {
    Ok(Box::new(alloc, made?)?)
}

/// Puts a value in the place of another one, which is let go.
pub fn put<T: Drop>(place: &mut T, value: T) {
    *place = value;
}
