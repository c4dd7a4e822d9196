//! Where a thread's end lies.

ghost use Rattle.std.specs.Prelude.{◌≡◌};

/// A thread's end, at least 256 bytes from what another thread writes.
#[derive(Drop)]
pub(crate) struct Apart<T: Drop> {
    before: [u64; 32],
    pub(crate) end: T,
    behind: [u64; 32],
}

impl<T: Drop> Apart<T> {
    pub(crate) fn new(end: T) -> Apart<T>
        ensures { result.end ≡ end }
    {
        Apart {
            before: [0; 32],
            end,
            behind: [0; 32],
        }
    }
}
