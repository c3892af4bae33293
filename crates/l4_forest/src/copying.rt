//! Copies of the mappings.

ghost use Rattle.std.specs.Prelude.{◌≡◌, IfOk};

use crate::{Forest, NoMemory};

impl Forest {
    /// Copies the mappings and spaces. The copy has its own memory, and shares nothing with the original.
    ///
    /// Returns `NoMemory` if an allocation failed; then nothing has changed. A copy takes memory for the greatest
    /// number of pages that were ever present at once.
    pub fn copy(&self) -> Result<Forest, NoMemory>
        ensures { IfOk result (λ copy. copy ≡ self.now) }
    {
        let links = self.links.copy()?;
        let mut roots = Vec::with_capacity(*self.roots.allocator(), self.roots.len())?;
        roots.extend_from_slice(self.roots.as_slice())?;
        Ok(Forest { links, roots })
    }
}
