//! A term as its list has it.
ghost use Rattle.std.specs.Prelude.{◌≡◌, ◌≤◌, map, IfOk};
ghost use Rattle.posting_list.specs.Terms.{sought_of};

use cell_types::{NoMemory, memory};
use std::alloc::Global;
use term_tags::{list_of, tag};
use word_reader::Term;

/// The list of a term, and the tag that its postings have there.
#[derive(Clone, Copy)]
pub struct SoughtTerm {
    pub list: u16,
    pub tag: [u8; 6],
}

/// Each term in its list of so many.
pub(crate) fn each_sought(
    alloc: Global,
    lists: u16,
    terms: &[Term],
) -> Result<Vec<SoughtTerm>, NoMemory>
    requires { 1 ≤ lists }
    ensures { IfOk result (λ sought. sought.items ≡ map (sought_of lists) terms.now) }
{
    let mut sought = memory::with_capacity(alloc, terms.len())?;
    for term in terms {
        memory::push(
            &mut sought,
            SoughtTerm {
                list: list_of(term, lists),
                tag: tag(term),
            },
        )?;
    }
    Ok(sought)
}
