//! The events of the exercise.
ghost use Rattle.std.specs.Prelude.{◌≡◌, ◌++◌, ◌<◌, ◌≤◌, ◌-◌, IfOk, OnOk};
ghost use Rattle.volume_exercise.specs.Events.{audit_event, exercise_events, format_event, ingest_event, ingests, look_up_event, look_ups, no_schedule, pair_event, pairs, single_event, singles};
ghost use Rattle.volume_exercise.specs.Documents.{word_of};
ghost use Rattle.command_line.specs.declared.words.TheConstants.{MAX_DOCUMENTS};
ghost use Rattle.volume_exercise.specs.declared.limits.TheConstants.{DISTINCT_WORDS};

use crate::documents::{body, identifier, word};
use crate::limits::{DISTINCT_WORDS, LISTS};
use cell_types::{FIRST_VERSION, NoMemory, memory};
use document_store::Text;
use script_events::{Event, Schedule, Sequence};
use std::alloc::Global;
use volume_meaning::WordRule;
use word_reader::{Term, WordFault, single_term};

/// The events of the exercise with so many documents, in order.
pub fn exercise_events(alloc: Global, documents: u32) -> Result<Vec<Event>, NoMemory>
    requires { documents ≤ MAX_DOCUMENTS }
    ensures { IfOk result (λ events. events.items ≡ exercise_events documents) }
{
    let mut events = Vec::new(alloc);
    memory::push(&mut events, format_event(alloc, documents))?;
    push_ingests(alloc, documents, &mut events)?;
    push_singles(alloc, &mut events)?;
    push_pairs(alloc, &mut events)?;
    push_look_ups(alloc, documents, &mut events)?;
    memory::push(&mut events, audit_event(alloc))?;
    Ok(events)
}

/// An ingest for each document.
fn push_ingests(alloc: Global, documents: u32, events: &mut Vec<Event>) -> Result<(), NoMemory>
    requires { documents ≤ MAX_DOCUMENTS }
    ensures { OnOk result (events.new.items ≡ events.old.items ++ ingests documents) }
{
    for document in 0..documents {
        let event = ingest_event(alloc, document)?;
        memory::push(events, event)?;
    }
    Ok(())
}

/// A find for each word.
fn push_singles(alloc: Global, events: &mut Vec<Event>) -> Result<(), NoMemory>
    ensures { OnOk result (events.new.items ≡ events.old.items ++ singles) }
{
    for number in 0..DISTINCT_WORDS {
        let event = single_event(alloc, number)?;
        memory::push(events, event)?;
    }
    Ok(())
}

/// A find for each pair of words.
fn push_pairs(alloc: Global, events: &mut Vec<Event>) -> Result<(), NoMemory>
    ensures { OnOk result (events.new.items ≡ events.old.items ++ pairs) }
{
    for number in 0..DISTINCT_WORDS - 1 {
        let event = pair_event(alloc, number)?;
        memory::push(events, event)?;
    }
    Ok(())
}

/// A look-up for each document.
fn push_look_ups(alloc: Global, documents: u32, events: &mut Vec<Event>) -> Result<(), NoMemory>
    ensures { OnOk result (events.new.items ≡ events.old.items ++ look_ups documents) }
{
    for document in 0..documents {
        let event = look_up_event(alloc, document)?;
        memory::push(events, event)?;
    }
    Ok(())
}

/// The volume gets a slot for each document.
fn format_event(alloc: Global, documents: u32) -> Event
    ensures { result ≡ format_event documents }
{
    Event::Format {
        slots: documents,
        lists: LISTS,
        version: FIRST_VERSION,
        plan: no_schedule(alloc),
    }
}

/// This document is taken in.
fn ingest_event(alloc: Global, document: u32) -> Result<Event, NoMemory>
    requires { document < MAX_DOCUMENTS }
    ensures { IfOk result (λ event. event ≡ ingest_event document) }
{
    let id = identifier(alloc, document)?;
    let body = body(alloc, document)?;
    Ok(Event::Ingest {
        id: Text::new(id),
        stamp: None,
        body: Text::new(body.into_bytes()),
        plan: no_schedule(alloc),
    })
}

/// This word is sought alone.
fn single_event(alloc: Global, number: u32) -> Result<Event, NoMemory>
    requires { number < DISTINCT_WORDS }
    ensures { IfOk result (λ event. event ≡ single_event number) }
{
    let only = term(alloc, number)?;
    let mut terms = Vec::new(alloc);
    memory::push(&mut terms, only)?;
    Ok(Event::Find {
        terms: Sequence::new(terms),
        plan: no_schedule(alloc),
    })
}

/// This word is sought with the next one.
fn pair_event(alloc: Global, number: u32) -> Result<Event, NoMemory>
    requires { number < DISTINCT_WORDS - 1 }
    ensures { IfOk result (λ event. event ≡ pair_event number) }
{
    let first = term(alloc, number)?;
    let second = term(alloc, number + 1)?;
    let mut terms = Vec::new(alloc);
    memory::push(&mut terms, first)?;
    memory::push(&mut terms, second)?;
    Ok(Event::Find {
        terms: Sequence::new(terms),
        plan: no_schedule(alloc),
    })
}

/// This document is looked up.
fn look_up_event(alloc: Global, document: u32) -> Result<Event, NoMemory>
    ensures { IfOk result (λ event. event ≡ look_up_event document) }
{
    let id = identifier(alloc, document)?;
    Ok(Event::Lookup {
        id: Text::new(id),
        plan: no_schedule(alloc),
    })
}

/// The volume is audited.
fn audit_event(alloc: Global) -> Event
    ensures { result ≡ audit_event }
{
    Event::Audit {
        plan: no_schedule(alloc),
    }
}

/// The term of this word.
fn term(alloc: Global, number: u32) -> Result<Term, NoMemory>
    requires { number < DISTINCT_WORDS }
    ensures { IfOk result (λ term. term ≡ word_of number) }
{
    let word = word(alloc, number)?;
    match single_term(alloc, word.as_bytes(), WordRule::Ascii) {
        Ok(term) => Ok(term),
        Err(WordFault::BadWord) => unreachable!(),
        Err(WordFault::NoMemory(lack)) => Err(lack),
    }
}

/// Nothing befalls a command.
fn no_schedule(alloc: Global) -> Schedule
    ensures { result ≡ no_schedule }
{
    Schedule {
        stop: None,
        fail: Sequence::new(Vec::new(alloc)),
        foreign: Sequence::new(Vec::new(alloc)),
    }
}
