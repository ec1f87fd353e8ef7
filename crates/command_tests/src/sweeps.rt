//! Every cut of an ingest and of `recover`, with crashes that keep each subset of what was not sure: settled again, the
//! volume is that of a run without a cut, cell by cell.
use crate::decoder::{State, digits_at, state_of_slot};
use crate::volume::{begin, formatted, outcome_of, unsure};
use cell_types::Refusal;
use std::alloc::Global;
use std::test::Fail;
use worm_device::Device;
use worm_memory::{MemoryDevice, Moment};

/// How many subsets six cells have. No cut here leaves more than six that are not sure.
const SUBSETS: u32 = 64;

/// An ingest that is cut, on a new volume of 1,000 cells or behind another document, and the next one.
#[derive(Clone, Copy)]
struct Case {
    volume: &'static str,
    before: Option<&'static str>,
    words: &'static str,
    body: &'static str,
    next: &'static str,
    slot: u32,
    /// The cells of its document and its journal: from this one, and up to that.
    from: u32,
    to: u32,
    /// The steps that make sure the reserve cell, the commit cell, and the journal's targets.
    syncs: [u32; 3],
}

/// A document of two words, one whose identifier gets a node of its own, in the cells 582 to 613, and one with a stamp,
/// whose pool begins at cell 836.
const CASES: [Case; 3] = [
    Case {
        volume: "format|8|2",
        before: None,
        words: "ingest|a",
        body: "hello world",
        next: "ingest|next",
        slot: 0,
        from: 580,
        to: 584,
        syncs: [3, 10, 14],
    },
    Case {
        volume: "format|8|2",
        before: Some("ingest|b"),
        words: "ingest|e",
        body: "",
        next: "ingest|next",
        slot: 1,
        from: 614,
        to: 617,
        syncs: [3, 9, 12],
    },
    Case {
        volume: "format|8|2|3",
        before: None,
        words: "ingest|a|1000",
        body: "",
        next: "ingest|next|1001",
        slot: 0,
        from: 836,
        to: 839,
        syncs: [3, 10, 13],
    },
];

/// The volume before the ingest.
fn volume_before(alloc: Global, case: &Case) -> Result<MemoryDevice, Fail> {
    let mut device = formatted(alloc, 1_000, case.volume)?;
    begin(&mut device)?;
    if let Some(words) = case.before {
        let (outcome, _) = outcome_of(alloc, words, &mut device, b"")?;
        if outcome.is_err() {
            return Err(Fail::from("the first document was not ingested"));
        }
        begin(&mut device)?;
    }
    Ok(device)
}

/// What runs leave that nothing cuts: before the ingest, with the slot given up, and with the document.
#[derive(Drop)]
struct Honest {
    unused: MemoryDevice,
    given_up: MemoryDevice,
    done: MemoryDevice,
}

/// Those of a case.
fn honest_runs(alloc: Global, case: &Case) -> Result<Honest, Fail> {
    let mut given_up = volume_before(alloc, case)?;
    given_up.stop_after(Moment::Step(3));
    let _ = outcome_of(alloc, case.words, &mut given_up, case.body.as_bytes())?;
    begin(&mut given_up)?;
    let (_, put) = outcome_of(alloc, "recover", &mut given_up, b"")?;
    let text = format!(in alloc; "slot {} abandoned\n", case.slot)?;
    if put.as_slice() != text.as_bytes() {
        return Err(Fail::from("the slot was not given up"));
    }
    let mut done = volume_before(alloc, case)?;
    let (outcome, _) = outcome_of(alloc, case.words, &mut done, case.body.as_bytes())?;
    if outcome.is_err() {
        return Err(Fail::from("the document was not ingested"));
    }
    Ok(Honest {
        unused: volume_before(alloc, case)?,
        given_up,
        done,
    })
}

/// Whether the cells are as one of these runs leaves them. Of a document that was given up, any of its cells may stand, and
/// its stamp.
fn is_honest(device: &mut MemoryDevice, honest: &mut Honest, case: &Case) -> bool {
    let state = state_of_slot(device, case.slot);
    let stamp = case.slot.saturating_mul(4).saturating_add(7);
    for at in 0..device.cells() {
        let found = digits_at(device, at);
        let done = digits_at(&mut honest.done, at);
        let holds = match state {
            State::Unused => found == digits_at(&mut honest.unused, at),
            State::Abandoned => {
                found == digits_at(&mut honest.given_up, at)
                    || (case.from <= at && at < case.to && found == done)
                    || (at == stamp && found == done)
            }
            State::Done => found == done,
            _ => false,
        };
        if !holds {
            return false;
        }
    }
    true
}

/// Settles the volume. Answers whether it is as an honest run leaves it then, and takes the next document.
fn is_made_up_for(
    alloc: Global,
    device: &mut MemoryDevice,
    honest: &mut Honest,
    case: &Case,
) -> Result<bool, Fail> {
    begin(device)?;
    let (outcome, _) = outcome_of(alloc, "recover", device, b"")?;
    if outcome.is_err() || !is_honest(device, honest, case) {
        return Ok(false);
    }
    let next = if state_of_slot(device, case.slot) == State::Unused {
        case.slot
    } else {
        case.slot.saturating_add(1)
    };
    begin(device)?;
    let (_, put) = outcome_of(alloc, case.next, device, b"hello")?;
    let text = format!(in alloc; "acknowledged {next}\n")?;
    Ok(put.as_slice() == text.as_bytes())
}

/// A crash that keeps those of the unsure cells whose bits are set. `None` where there are no such cells.
fn crash(alloc: Global, mut device: MemoryDevice, bits: u32) -> Result<Option<MemoryDevice>, Fail> {
    let mut keep = Vec::new(alloc);
    let mut left = bits;
    for at in &unsure(alloc, &device)? {
        if left % 2 == 1 {
            keep.push(*at)?;
        }
        left /= 2;
    }
    if left > 0 {
        return Ok(None);
    }
    begin(&mut device)?;
    let _ = device.crash(&keep)?;
    begin(&mut device)?;
    Ok(Some(device))
}

/// The ingest, whose call of this number fails. `None` where it needs fewer calls.
fn cut_ingest(alloc: Global, case: &Case, moment: Moment) -> Result<Option<MemoryDevice>, Fail> {
    let mut device = volume_before(alloc, case)?;
    device.fail_at(moment)?;
    let (outcome, _) = outcome_of(alloc, case.words, &mut device, case.body.as_bytes())?;
    if outcome != Err(Refusal::DeviceFault) {
        return Ok(None);
    }
    Ok(Some(device))
}

/// A `recover` over what a crash has left, whose call of this number fails. `None` where it needs fewer calls.
fn cut_recover(
    alloc: Global,
    mut device: MemoryDevice,
    call: u32,
) -> Result<Option<MemoryDevice>, Fail> {
    device.fail_at(Moment::Call(call))?;
    let (outcome, put) = outcome_of(alloc, "recover", &mut device, b"")?;
    if outcome != Err(Refusal::DeviceFault) || !put.is_empty() {
        return Ok(None);
    }
    Ok(Some(device))
}

#[test]
fn an_ingest_that_is_cut_is_whole_or_given_up(rt: HostRuntime) -> Result<(), Fail> {
    let alloc = rt.alloc();
    let mut cuts: u32 = 0;
    for case in &CASES {
        let mut honest = honest_runs(alloc, case)?;
        for call in 1..120 {
            for bits in 0..SUBSETS {
                let Some(device) = cut_ingest(alloc, case, Moment::Call(call))? else {
                    break;
                };
                let Some(mut device) = crash(alloc, device, bits)? else {
                    break;
                };
                let holds = is_made_up_for(alloc, &mut device, &mut honest, case)?;
                assert!(rt; holds, "{} call {call} kept {bits}", case.words);
                cuts = cuts.saturating_add(1);
            }
        }
    }
    assert!(rt; cuts > 100, "{cuts}");
    Ok(())
}

/// Cuts `recover` at each call, over an ingest whose step of this number failed and a crash that kept these cells.
/// Answers how many cuts there are, none where there are no such cells; `None` where one is not made up for.
fn cuts_of_recover(
    alloc: Global,
    case: &Case,
    honest: &mut Honest,
    step: u32,
    kept: u32,
) -> Result<Option<u32>, Fail> {
    let mut cuts: u32 = 0;
    for call in 1..60 {
        for bits in 0..SUBSETS {
            let Some(device) = cut_ingest(alloc, case, Moment::Step(step))? else {
                return Ok(Some(cuts));
            };
            let Some(device) = crash(alloc, device, kept)? else {
                return Ok(Some(cuts));
            };
            let Some(device) = cut_recover(alloc, device, call)? else {
                return Ok(Some(cuts));
            };
            let Some(mut device) = crash(alloc, device, bits)? else {
                break;
            };
            if !is_made_up_for(alloc, &mut device, honest, case)? {
                return Ok(None);
            }
            cuts = cuts.saturating_add(1);
        }
    }
    Ok(Some(cuts))
}

#[test]
fn recover_that_is_cut_is_made_up_for(rt: HostRuntime) -> Result<(), Fail> {
    let alloc = rt.alloc();
    let mut cuts: u32 = 0;
    for case in &CASES {
        let mut honest = honest_runs(alloc, case)?;
        for step in case.syncs {
            for kept in 0..SUBSETS {
                let more = cuts_of_recover(alloc, case, &mut honest, step, kept)?;
                assert!(rt; more.is_some(), "{} step {step} kept {kept}", case.words);
                if more == Some(0) {
                    break;
                }
                cuts = cuts.saturating_add(more.unwrap_or(0));
            }
        }
    }
    assert!(rt; cuts > 100, "{cuts}");
    Ok(())
}
