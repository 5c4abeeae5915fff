// What takes memory, with the error that says that none is left.

ghost use Rattle.std.specs.Prelude.{◌≡◌, [], ◌∷◌, ◌++◌, IfOk, OnOk};

use crate::fault::NoMemory;
use std::alloc::Global;

/// A value on the heap.
pub fn boxed<T: Drop>(alloc: Global, value: T) -> Result<Box<T>, NoMemory>
    ensures { IfOk result (λ b. b.value ≡ value) }
{
    Ok(Box::new(alloc, value)?)
}

/// Puts an item at the end.
pub fn push<T: Drop>(items: &mut Vec<T>, last: T) -> Result<(), NoMemory>
    ensures { OnOk result (items.new.items ≡ items.old.items ++ last ∷ []) }
{
    Ok(items.push(last)?)
}
