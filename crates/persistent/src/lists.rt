//! Lists of values with memory of their own.
ghost use Rattle.std.specs.Prelude.{◌≡◌, IfOk, ◌∷◌, ◌++◌};

use std::alloc::{AllocError, Global};

/// The values of both parts, one part behind the other.
pub fn list_of<T: Copy>(alloc: Global, first: &[T], second: &[T]) -> Result<Vec<T>, AllocError>
    ensures { IfOk result (λ list. list.items ≡ first.now ++ second.now) }
{
    let mut list = Vec::with_capacity(alloc, first.len().saturating_add(second.len()))?;
    list.extend_from_slice(first)?;
    list.extend_from_slice(second)?;
    Ok(list)
}

/// The same, with one value between both parts.
pub fn list_around<T: Copy>(
    alloc: Global,
    first: &[T],
    value: T,
    second: &[T],
) -> Result<Vec<T>, AllocError>
    ensures { IfOk result (λ list. list.items ≡ first.now ++ value ∷ second.now) }
{
    let many = first.len().saturating_add(second.len());
    let mut list = Vec::with_capacity(alloc, many.saturating_add(1))?;
    list.extend_from_slice(first)?;
    list.push(value)?;
    list.extend_from_slice(second)?;
    Ok(list)
}
