//! What is read of a script. Texts stand here with single quotes for double ones.
use cell_types::Cell;
use script_events::{Event, Script, Timed, read_script};
use std::alloc::Global;
use std::test::Fail;
use worm_memory::Moment;

/// The JSON text that stands here with single quotes.
fn json(alloc: Global, text: &str) -> Result<Vec<u8>, Fail> {
    let mut quoted = Vec::new(alloc);
    for byte in text.as_bytes() {
        quoted.push(if *byte == b'\'' { b'"' } else { *byte })?;
    }
    Ok(quoted)
}

/// The script that a text is.
fn script(alloc: Global, text: &str) -> Result<Script, Fail> {
    Ok(read_script(alloc, &json(alloc, text)?)?)
}

/// A device of 1,000 cells, and an ingest that is cut by a crash.
const EXAMPLE: &str = "{'cells': 1000, 'events': [
 {'do': 'format', 'slots': 8, 'lists': 2},
 {'do': 'ingest', 'id': 'a', 'body': 'hello world', 'stop': {'step': 12}},
 {'do': 'crash', 'keep': [37]},
 {'do': 'recover'},
 {'do': 'find', 'words': ['hello']}]}";

#[test]
fn a_script_is_read(rt: HostRuntime) -> Result<(), Fail> {
    let script = script(rt.alloc(), EXAMPLE)?;
    assert_eq!(rt; script.cells, 1_000);
    let [format, ingest, crash, recover, find] = script.events.as_slice() else {
        return Err(Fail::from("not five events"));
    };
    assert!(rt;
        matches!(
            format,
            Event::Format {
                slots: 8,
                lists: 2,
                ..
            }
        )
    );
    assert!(rt; matches!(recover, Event::Recover { .. }));
    let Event::Ingest {
        id,
        stamp,
        body,
        plan,
    } = ingest
    else {
        return Err(Fail::from("no ingest"));
    };
    assert_eq!(rt; *stamp, None);
    assert_eq!(rt; id.bytes(), b"a".as_slice());
    assert_eq!(rt; body.bytes(), b"hello world".as_slice());
    assert_eq!(rt; plan.stop, Some(Moment::Step(12)));
    let Event::Crash { keep } = crash else {
        return Err(Fail::from("no crash"));
    };
    assert_eq!(rt; keep.as_slice(), [37].as_slice());
    let Event::Find { terms, .. } = find else {
        return Err(Fail::from("no find"));
    };
    let [term] = terms.as_slice() else {
        return Err(Fail::from("not one term"));
    };
    assert_eq!(rt; term.bytes(), b"hello".as_slice());
    Ok(())
}

/// What is planned for an audit, and what somebody else writes between two commands.
const PLANNED: &str = "{'cells': 9, 'events': [
 {'do': 'audit', 'fail': [{'call': 1}, {'step': 1000000}],
  'foreign': [{'before': {'call': 3}, 'at': 8, 'cell': '0000000000000000000000000000000F'}]},
 {'do': 'foreign', 'at': 0, 'cell': '0000000000000000000000000000000f'},
 {'do': 'lookup', 'id': '~', 'id': '!'},
 {'do': 'ingest', 'id': 'x', 'stamp': 4294967295, 'hex': '00fF'}]}";

#[test]
fn plans_are_read(rt: HostRuntime) -> Result<(), Fail> {
    let script = script(rt.alloc(), PLANNED)?;
    let value = Cell::from_bytes([0, 0, 0, 0, 0, 0, 0, 0, 0, 0, 0, 0, 0, 0, 0, 15]).ok_or("blank")?;
    let [audit, foreign, lookup, ingest] = script.events.as_slice() else {
        return Err(Fail::from("not four events"));
    };
    let Event::Audit { plan } = audit else {
        return Err(Fail::from("no audit"));
    };
    assert_eq!(rt; plan.stop, None);
    assert_eq!(rt;
        plan.fail.as_slice(),
        [Moment::Call(1), Moment::Step(1_000_000)].as_slice()
    );
    let timed = Timed {
        before: Moment::Call(3),
        at: 8,
        cell: value,
    };
    assert_eq!(rt; plan.foreign.as_slice(), [timed].as_slice());
    let Event::Foreign { at, cell } = foreign else {
        return Err(Fail::from("no foreign write"));
    };
    assert_eq!(rt; (*at, *cell), (0, value));
    // Of a repeated member the last counts.
    let Event::Lookup { id, .. } = lookup else {
        return Err(Fail::from("no look-up"));
    };
    assert_eq!(rt; id.bytes(), b"!".as_slice());
    let Event::Ingest { stamp, body, .. } = ingest else {
        return Err(Fail::from("no ingest"));
    };
    assert_eq!(rt; *stamp, Some(4_294_967_295));
    assert_eq!(rt; body.bytes(), b"\x00\xff".as_slice());
    Ok(())
}
