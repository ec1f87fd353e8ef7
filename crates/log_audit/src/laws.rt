//! Laws of evidence, and of slots that are stored.
ghost use Rattle.log_audit.specs.Findings.{EvidenceIsOne};
ghost use Rattle.log_audit.specs.Stored.{StoredIsLive, LiveIsStored};

/// A law: of an image in which a rule is broken there is one evidence, that of the least rule at its least cell.
pub fn evidence_is_one()
    ensures { EvidenceIsOne }
{}

/// A law: the stored slots of a volume with a log are its live ones.
pub fn stored_slots_are_live()
    ensures stored { StoredIsLive }
    ensures live { LiveIsStored }
{}
