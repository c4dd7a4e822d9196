//! Room between what threads write.

ghost use Rattle.std.specs.Prelude.{◌≡◌};

/// What one thread writes, at least 256 bytes from what the others write: else each write of one would take the memory
/// that it lies in from the caches of the others.
#[derive(Drop)]
pub(crate) struct Apart<T: Drop> {
    before: [u64; 32],
    pub(crate) side: T,
    behind: [u64; 32],
}

impl<T: Drop> Apart<T> {
    pub(crate) fn new(side: T) -> Apart<T>
        ensures { result.side ≡ side }
    {
        Apart {
            before: [0; 32],
            side,
            behind: [0; 32],
        }
    }
}
