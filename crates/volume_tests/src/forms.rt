//! The receipt of the small volume is read, and receipts are printed.
use cell_types::{Cell, Refusal};
use document_store::Text;
use receipt_text::{ListedCells, Receipt, read_receipt, text_of_receipt};
use std::test::Fail;

/// The receipt of the document `a` of the small volume: the cells that FORMAT.md decodes, but for the journal.
const SMALL: &str = "receipt 0 a
0 0101000000080002000003e800000000
4 02000002440000000400000000000004
5 030000000d0000000300000000000005
6 05000000000000000000000000000006
36 0600000000012cf24dba5fb000000024
37 060000000101486ea46224d100000025
560 0800000000ca978112ca1bbd00000230
580 1d016168656c6c6f20776f726c640000
end 8
";

/// The addresses of its cells.
const ADDRESSES: [u32; 8] = [0, 4, 5, 6, 36, 37, 560, 580];

#[test]
fn the_receipt_of_the_small_volume_is_read(rt: HostRuntime) -> Result<(), Fail> {
    let receipt = read_receipt(rt.alloc(), SMALL.as_bytes(), 1_000).map_err(Refusal::from)?;
    assert_eq!(rt; receipt.slot, 0);
    assert!(rt; receipt.identifier.bytes() == b"a".as_slice());
    assert_eq!(rt; receipt.cells.len(), 8);
    let mut next = 0;
    for address in ADDRESSES {
        let found = receipt.cells.first_from(next).ok_or("a cell is missing")?;
        assert_eq!(rt; found.at, address);
        assert!(rt; receipt.cells.at(address) == Some(found.value));
        next = address + 1;
    }
    assert!(rt; receipt.cells.first_from(next).is_none());
    let posting = receipt.cells.at(36).ok_or("cell 36 is missing")?;
    assert!(rt;
        posting.bytes()
            == [
                6, 0, 0, 0, 0, 1, 0x2c, 0xf2, 0x4d, 0xba, 0x5f, 0xb0, 0, 0, 0, 0x24
            ]
    );
    Ok(())
}

#[test]
fn what_is_read_is_printed_again(rt: HostRuntime) -> Result<(), Fail> {
    let receipt = read_receipt(rt.alloc(), SMALL.as_bytes(), 1_000).map_err(Refusal::from)?;
    let text = text_of_receipt(rt.alloc(), &receipt)?;
    assert!(rt; text.as_slice() == SMALL.as_bytes());
    Ok(())
}

#[test]
fn cells_are_printed_by_rising_address(rt: HostRuntime) -> Result<(), Fail> {
    let mut cells = ListedCells::new(rt.alloc());
    for at in [36, 4_294_967_295, 0, 36] {
        let value = Cell::from_bytes([0, 0xab, 0, 0, 0, 0, 0, 0, 0, 0, 0, 0, 0, 0, 0, 1]).ok_or(
            "a blank cell",
        )?;
        cells.add(at, value)?;
    }
    let receipt = Receipt {
        slot: 16_777_215,
        identifier: Text::new(b"~!".to_vec(rt.alloc())?),
        cells,
    };
    let text = text_of_receipt(rt.alloc(), &receipt)?;
    let expected = "receipt 16777215 ~!
0 00ab0000000000000000000000000001
36 00ab0000000000000000000000000001
4294967295 00ab0000000000000000000000000001
end 3
";
    assert!(rt; text.as_slice() == expected.as_bytes());
    Ok(())
}
