//! Laws: what the definitions mean together. Each is a function that does nothing and whose contract is the law.
ghost use Rattle.crash_laws.specs.Laws.{IngestAddsOne, IngestNamesNone, IngestStaysSteady, RefusedIngestKeeps};

/// An ingest leaves whole volumes at every moment, and a steady device.
pub fn ingest_stays_steady()
    ensures { IngestStaysSteady }
{}

/// One that ends well adds its document, and no other.
pub fn ingest_adds_one()
    ensures { IngestAddsOne }
{}

/// One that is refused adds none and loses none.
pub fn refused_ingest_keeps()
    ensures { RefusedIngestKeeps }
{}

/// From a steady state an ingest names no tampering.
pub fn ingest_names_none()
    ensures { IngestNamesNone }
{}
