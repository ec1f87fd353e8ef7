//! The lines and statuses of refusals that no row of `worked_rows` shows: each wants more memory, a longer receipt or a fuller
//! target than a row has.
use cell_types::{CopyRefusal, NoMemory, Refusal, memory};
use std::alloc::Global;
use std::test::Fail;

/// Asks for more than any memory has.
fn ask_too_much(alloc: Global) -> Result<(), NoMemory> {
    let _items: Vec<u64> = memory::with_capacity(alloc, usize::MAX)?;
    Ok(())
}

#[test]
fn refusals_that_no_row_shows_have_their_lines(rt: HostRuntime) -> Result<(), Fail> {
    let long = Refusal::ReceiptTooLong(1_000_001);
    let refused = ask_too_much(rt.alloc()).map_err(Refusal::from);
    assert!(rt; refused.is_err());
    let Err(lack) = refused else {
        return Ok(());
    };
    assert_eq!(rt; lack.status(), 8);
    assert_eq!(rt; long.status(), 3);
    let line = format!(in rt.alloc(); "{lack}, {long}")?;
    assert_eq!(rt; line.as_str(), "out of memory, receipt has 1000001 cells");
    Ok(())
}

#[test]
fn refusals_of_a_copy_that_no_row_shows_have_their_lines(rt: HostRuntime) -> Result<(), Fail> {
    let full = CopyRefusal::To(Refusal::Full { need: 4, free: 3 });
    let other_slots = CopyRefusal::Differs { old: 0, new: 1 };
    let refused = ask_too_much(rt.alloc()).map_err(CopyRefusal::from);
    assert!(rt; refused.is_err());
    let Err(lack) = refused else {
        return Ok(());
    };
    assert_eq!(rt; lack.status(), 8);
    assert_eq!(rt; full.status(), 3);
    let line = format!(in rt.alloc(); "{lack}, {full}, {other_slots}")?;
    assert_eq!(rt;
        line.as_str(),
        "out of memory, to: needs 4 cells, 3 are free, slot 0 differs from slot 1 of the target"
    );
    Ok(())
}
