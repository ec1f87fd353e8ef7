//! Laws: what the words of the contracts mean together, over all images.
ghost use Rattle.receipt_cells.specs.Laws.{KeptByCells, ListsKeepAlone};

/// A document is kept wherever the cells stand which its being kept rests on.
pub fn kept_by_cells()
    ensures { KeptByCells }
{}

/// A list of just these cells keeps the document by itself.
pub fn lists_keep_alone()
    ensures { ListsKeepAlone }
{}
