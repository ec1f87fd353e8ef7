//! One term.
use cell_types::{NoMemory, memory};
use std::alloc::Global;
use std::marker::Model;

/// The bytes of one word, at least one. Contracts see the list of them.
#[derive(Drop)]
pub struct Term {
    bytes: Vec<u8>,
}

impl Model for Term {
    ghost use Rattle.std.specs.Prelude.{◌≤◌, List, ℕ, length};

    ghost Value = { List ℕ };

    ghost view = { λ t. t.bytes.items };

    ghost invariant = { λ t. 1 ≤ length t.bytes.items };
}

impl Term {
    ghost use Rattle.std.specs.Prelude.{◌≡◌, ◌≤◌, length, IfOk};

    /// The term of these bytes.
    pub(crate) fn new(bytes: Vec<u8>) -> Term
        requires { 1 ≤ length bytes.items }
        ensures { result ≡ bytes.items }
    {
        Term { bytes }
    }

    /// The bytes, with A to Z as a to z.
    pub fn bytes(&self) -> &[u8]
        ensures same { result.now ≡ self.now }
        ensures some { 1 ≤ length self.now }
    {
        &self.bytes
    }

    /// The same term once more.
    pub(crate) fn copy(&self, alloc: Global) -> Result<Term, NoMemory>
        ensures { IfOk result (λ copy. copy ≡ self.now) }
    {
        let mut bytes = Vec::new(alloc);
        memory::extend_from_slice(&mut bytes, &self.bytes)?;
        Ok(Term { bytes })
    }
}
