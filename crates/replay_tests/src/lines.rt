//! A line of each kind of reply but a format, a crash and a slot that is completed: those have theirs in the rows
//! `scripts.rows` of `worked_rows`. What is expected was written by hand.
use cell_types::{Cell, Evidence, Refusal};
use document_store::Text;
use record_query::Match;
use recovery_engine::Step;
use script_events::Sequence;
use script_replies::{Reply, text_of_replies};
use std::alloc::{AllocError, Global};
use std::test::Fail;
use volume_audit::AuditReport;

/// The bytes 04, thirteen zeros, and a last one.
fn cell(last: u8) -> Option<Cell> {
    Cell::from_bytes([4, 0, 0, 0, 0, 0, 0, 0, 0, 0, 0, 0, 0, 0, 0, last])
}

/// A text of these bytes.
fn text(alloc: Global, bytes: &[u8]) -> Result<Text, AllocError> {
    Ok(Text::new(bytes.to_vec(alloc)?))
}

/// The matches in these slots.
fn matches(alloc: Global, slots: &[u32]) -> Result<Sequence<Match>, Fail> {
    let mut found = Vec::new(alloc);
    for slot in slots {
        found.push(Match {
            slot: *slot,
            identifier: text(alloc, b"a")?,
            bytes: 11,
        })?;
    }
    Ok(Sequence::new(found))
}

/// The text of these replies is this.
fn prints(alloc: Global, replies: &[Reply], expected: &str) -> Result<bool, Fail> {
    let text = text_of_replies(alloc, replies)?;
    Ok(text.as_str() == expected)
}

/// There are more than nine, so that a number has two digits.
#[test]
fn each_kind_has_its_line(rt: HostRuntime) -> Result<(), Fail> {
    let alloc = rt.alloc();
    let found = cell(5).ok_or("a blank cell")?;
    let replies = [
        Reply::Acknowledged(16_777_215),
        Reply::Refused(Refusal::Tampered(Evidence {
            rule: 2,
            cell: 5,
            found,
        })),
        Reply::Found(matches(alloc, &[])?),
        Reply::Found(matches(alloc, &[0, 7, 12])?),
        Reply::Body {
            slot: 3,
            body: text(alloc, b"hello world")?,
        },
        Reply::Sound(AuditReport {
            done: 2,
            abandoned: 1,
            written: 17,
        }),
        Reply::Settled(Step::Nothing),
        Reply::Settled(Step::Abandoned(4)),
        Reply::ForeignDone,
        Reply::ForeignTaken(found),
        Reply::Refused(Refusal::Absent),
    ];
    let expected = "1 0 acknowledged 16777215
2 4 tampered 2 5 04000000000000000000000000000005
3 0 found
4 0 found 0 7 12
5 0 slot 3, 11 bytes
6 0 sound: 2 done, 1 abandoned, 17 written cells
7 0 nothing to settle
8 0 slot 4 abandoned
9 0 done
10 0 taken 04000000000000000000000000000005
11 10 refused
";
    assert!(rt; prints(alloc, &replies, expected)?);
    Ok(())
}
