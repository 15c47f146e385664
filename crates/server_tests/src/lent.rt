//! A value that is owned here and lent, so that the functions that ask of it own none.

/// Whether a value that was made is as a question says; not where memory was wanting.
pub fn with<T: Drop, F: FnOnce(&mut T) -> bool>(made: Option<T>, asks: F) -> bool
    requires { F.IsAlwaysCallable asks }
{
    match made {
        Some(mut value) => asks(&mut value),
        None => false,
    }
}
