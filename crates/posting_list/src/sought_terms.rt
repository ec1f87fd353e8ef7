//! The terms that are sought.
ghost use Rattle.std.specs.Prelude.{◌≡◌, ◌<◌, ◌^◌, vec_len};

use crate::SoughtTerm;
use crate::sought_term::each_sought;
use cell_types::{NoMemory, Volume, memory};
use std::alloc::Global;
use word_reader::Term;

/// The terms that are sought, each in its list. They are all of a search that takes memory.
#[derive(Drop)]
pub struct SoughtTerms {
    pub terms: Vec<SoughtTerm>,
    ghost few: { vec_len terms < 2 ^ 32 },
}

impl SoughtTerms {
    ghost use Rattle.std.specs.Prelude.{◌≡◌, ◌≤◌, map, IfOk};
    ghost use Rattle.posting_list.specs.Terms.{sought_of};

    /// The terms in their order, each in its list of the volume's. There is no memory for 2^32 terms.
    pub fn new(alloc: Global, volume: &Volume, terms: &[Term]) -> Result<SoughtTerms, NoMemory>
        ensures { IfOk result (λ sought.
            sought.terms.items ≡ map (sought_of volume.now.geometry.lists) terms.now) }
    {
        memory::count_of(terms)?;
        let terms = each_sought(alloc, volume.geometry.lists(), terms)?;
        Ok(SoughtTerms { terms })
    }
}
