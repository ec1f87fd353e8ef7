//! A law: what one grant after another gives.
ghost use Rattle.cell_pool.specs.Grants.{GrantsTile};

/// Grants tile the cells that the pool has given, and so no two of them meet.
pub fn grants_tile()
    ensures { GrantsTile }
{}
