//! The lists of terms over a view.
ghost use Rattle.posting_list.specs.Keeping.{KeepEach, keep_each_prop};

use crate::{Reach, SoughtTerms};
use cell_types::Volume;
use document_store::Part;
use jump_index::{Bounds, KeptSearch};
use worm_device::View;

/// How many lists have a search of their own that is kept: as many as a query has terms.
pub(crate) const SEARCHES: usize = 8;

/// The lists of some terms over a view: one a term, in their order. Each list keeps a search of its own, else two lists
/// would put out what the other has kept at every turn of the join. From the ninth on a list shares it with one before.
#[derive(Drop)]
pub struct TermLists<'a, V: View> {
    pub view: &'a mut V,
    pub sought: &'a SoughtTerms,
    pub reach: Reach,
    pub(crate) searches: [KeptSearch; SEARCHES],
    /// The document's part of the slot that a list has looked at last.
    pub(crate) last: Option<Part>,
    /// How often a list was asked for its next slot.
    pub next_asks: u64,
    /// How often one was asked whether it has a slot.
    pub has_asks: u64,
    ghost kept: { KeepEach (V.seen view.now) searches } by { keep_each_prop (V.seen view.now) searches },
}

impl<'a, V: View> TermLists<'a, V> {
    ghost use Rattle.std.specs.Prelude.{◌≡◌};

    /// The lists of these terms over a view, which is lent to them.
    pub fn new(
        view: &'a mut V,
        sought: &'a SoughtTerms,
        volume: Volume,
        horizon: u32,
        bounds: Bounds,
    ) -> TermLists<'a, V>
        ensures same_loan { result.view.ghost_name ≡ view.entry.ghost_name }
        ensures view { result.view.now ≡ view.old }
        ensures sought { result.sought.now ≡ sought.now }
        ensures reach { result.reach ≡ record { volume = volume; horizon = horizon; bounds = bounds } }
        ensures unasked { (result.next_asks ≡ 0) × (result.has_asks ≡ 0) }
    {
        let unknown = KeptSearch::new();
        TermLists {
            view,
            sought,
            reach: Reach {
                volume,
                horizon,
                bounds,
            },
            searches: [unknown; SEARCHES],
            last: None,
            next_asks: 0,
            has_asks: 0,
        }
    }
}
