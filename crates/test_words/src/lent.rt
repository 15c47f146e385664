//! Values that are lent to a test: the functions here own them, and know nothing else of them.

use std::alloc::Global;

/// What a test asks of a value.
pub trait Of<T> {
    /// Whether a value is as a text says.
    fn is_as(alloc: Global, value: &T, told: &str) -> bool;
}

/// Whether there is a value, and it is as a text says.
pub fn is_as<T: Drop, Q: Of<T>>(alloc: Global, value: Option<T>, told: &str) -> bool {
    match &value {
        Some(value) => Q::is_as(alloc, value, told),
        None => false,
    }
}

/// Whether there is no value.
pub fn is_none<T: Drop>(value: Option<T>) -> bool {
    value.is_none()
}

/// Whether there is a value, which goes to the end of a list.
pub fn is_put<T: Drop>(list: &mut Vec<T>, value: Option<T>) -> bool {
    match value {
        Some(value) => list.push(value).is_ok(),
        None => false,
    }
}
