//! Cells, and where the parts of a volume lie.
ghost use Rattle.std.specs.Prelude.{◌≡◌, ◌≤◌, ◌-◌, ◌++◌, ◌↔◌, ℕ, List, replicate, take, IfSome, IfNone, IsSome, Some};
ghost use Rattle.cell_types.specs.Contents.{IsContentCell};
ghost use Rattle.cell_types.specs.Layout.{IsLayout};
ghost use Rattle.cell_types.specs.Records.{IsRecordCell, IsWellFormed, record_bytes};
ghost use Rattle.cell_types.specs.declared.geometry.TheConstants.{FIRST_VERSION, NEWEST_VERSION};
ghost use Rattle.cell_types.specs.declared.record_cell.RecordCell.{RecordCell};

use cell_types::{Cell, Content, Geometry, RecordCell, content_of, decode, encode};

/// `encode`.
pub fn encode_again(value: RecordCell, address: u32) -> Cell
    requires { IsWellFormed value address }
    ensures same { result ≡ record_bytes value address }
    ensures cell { IsRecordCell value address result }
{
    encode(value, address)
}

/// `decode`.
pub fn decode_again(cell: Cell, address: u32) -> Option<RecordCell>
    ensures some { IfSome result (λ r. IsRecordCell r address cell) }
    ensures none { IfNone result ((r : RecordCell) → IsRecordCell r address cell → ⊥) }
    ensures one { (r : RecordCell) → IsRecordCell r address cell → result ≡ Some r }
{
    decode(cell, address)
}

/// `content_of`.
pub fn content_of_again(cell: Cell) -> Option<Content>
    ensures some { IfSome result (λ held. IsContentCell (take held.length held.bytes) cell) }
    ensures most { IfSome result (λ held. held.length ≤ 15) }
    ensures zeros { IfSome result (λ held.
        held.bytes ≡ take held.length held.bytes ++ replicate (15 - held.length) 0) }
    ensures none { IfNone result ((bytes : List ℕ) → IsContentCell bytes cell → ⊥) }
{
    content_of(cell)
}

/// `Geometry::new`.
pub fn geometry_again(slots: u32, lists: u16, cells: u32, version: u8) -> Option<Geometry>
    requires some { FIRST_VERSION ≤ version }
    requires most { version ≤ NEWEST_VERSION }
    ensures exists { IsSome result
        ↔ IsLayout (record { slots = slots; lists = lists; cells = cells; version = version }) }
    ensures same { IfSome result (λ g. g
        ≡ record { slots = slots; lists = lists; cells = cells; version = version }) }
{
    Geometry::new(slots, lists, cells, version)
}
