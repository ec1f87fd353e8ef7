//! The postings that documents are to have.
ghost use Rattle.std.specs.Prelude.{◌≡◌, ℕ, [], IfNone, IfOk, IfSome, IsTrue, OnOk, Some, slice_get};
ghost use Rattle.tamper_rules.specs.Rules.{Documents};
ghost use Rattle.log_audit.specs.KeptVolumes.{KeepsRule};
ghost use Rattle.log_audit.specs.Stored.{FitsInSlot};
ghost use Rattle.volume_meaning.specs.Blocks.{PostingFields};
ghost use Rattle.list_audit.specs.Owed.{IsAllOwed};
ghost use Rattle.list_audit.specs.Tables.{AddsRow, AddsRows, AreOrderedRows, AreSameRows, FitsRow, HasRow, number_of};

use crate::listing::postings_of;
use cell_types::{NoMemory, RecordCell, address_of, decode, memory};
use host_ports::{Meter, Work};
use log_audit::{KeptCells, KeptVolume, StoredSlot};
use std::alloc::Global;
use term_tags::{KnownKeys, ListedPosting};
use volume_meaning::PostingFields;

/// How far the numbers of the postings of a list lie from those of the next.
pub(crate) const LIST_STEP: u64 = 1_099_511_627_776;

/// How far those of a key lie from those of the next.
pub(crate) const KEY_STEP: u64 = 256;

/// How many lists two bytes name.
const LISTS: u64 = 65_536;

/// How many keys four bytes name.
const KEYS: u64 = 4_294_967_296;

/// Postings with their lists, 16 bytes each: the list, the key and the greatest ordinal as one number, and the tag.
#[derive(Drop)]
pub(crate) struct PostingTable {
    pub(crate) rows: Vec<(u64, [u8; 6])>,
}

/// The postings that the documents of a volume are owed, and whether those of each document exist.
#[derive(Drop)]
pub struct OwedPostings {
    pub(crate) table: PostingTable,
    pub(crate) all_exist: bool,
}

impl PostingTable {
    /// No posting yet, and room for as many as journals hold: on a volume that keeps its rules these are all, so that
    /// the row never grows.
    fn with_room(alloc: Global, volume: &KeptVolume) -> Result<PostingTable, NoMemory>
        ensures { IfOk result (λ table. table.rows.items ≡ []) }
    {
        let room = journaled_postings(volume);
        let rows = memory::with_capacity(alloc, room)?;
        Ok(PostingTable { rows })
    }

    /// Adds a posting behind the others.
    pub(crate) fn add(&mut self, row: &ListedPosting) -> Result<(), NoMemory>
        ensures { OnOk result (AddsRow row.now self.old.rows.items self.new.rows.items) }
    {
        let number = number_of(row.list(), row.key(), row.last());
        memory::push(&mut self.rows, (number, row.tag()))?;
        Ok(())
    }

    /// Adds these postings.
    fn add_all(&mut self, rows: &[ListedPosting]) -> Result<(), NoMemory>
        ensures { OnOk result (AddsRows rows.now self.old.rows.items self.new.rows.items) }
    {
        for row in rows {
            self.add(row)?;
        }
        Ok(())
    }

    /// Puts them in order.
    fn sort(&mut self)
        ensures order { AreOrderedRows self.new.rows.items }
        ensures same { AreSameRows self.old.rows.items self.new.rows.items }
    {
        self.rows.sort_unstable();
    }

    /// The place of a posting of a list, if it is there: the guess, or found by bisection.
    pub(crate) fn place_of(&self, list: u16, posting: &PostingFields, guess: usize) -> Option<usize>
        requires { AreOrderedRows self.now.rows.items }
        ensures some { IfSome result (λ place. HasRow self.now.rows.items list posting.now) }
        ensures none { IfNone result (HasRow self.now.rows.items list posting.now → ⊥) }
    {
        let sought = (number_of(list, posting.key, posting.last), posting.tag);
        if is_row_at(&self.rows, guess, &sought) {
            return Some(guess);
        }
        let Ok(place) = self.rows.binary_search(&sought) else {
            return None;
        };
        Some(place)
    }
}

/// Whether this one stands at a place.
fn is_row_at(rows: &[(u64, [u8; 6])], place: usize, sought: &(u64, [u8; 6])) -> bool
    ensures { IsTrue result → slice_get rows.now place ≡ Some sought.now }
{
    let Some(row) = row_at(rows, place) else {
        return false;
    };
    is_same_row(&row, sought)
}

/// What stands at a place.
fn row_at(rows: &[(u64, [u8; 6])], place: usize) -> Option<(u64, [u8; 6])>
    ensures { result ≡ slice_get rows.now place }
{
    match rows.get(place) {
        Some(row) => Some(*row),
        None => None,
    }
}

/// Whether both are the same.
fn is_same_row(row: &(u64, [u8; 6]), other: &(u64, [u8; 6])) -> bool
    ensures { IsTrue result → row.now ≡ other.now }
{
    *row == *other
}

/// What the documents of a volume are owed, where rule 4 is kept. It takes 16 bytes a posting, and while they are made
/// what one document's words and postings take, and 768 KiB for keys of words. The meter is shown how many of the slots'
/// checks are made, of which this is the first one of each.
///
/// # Errors
///
/// `NoMemory`.
pub fn owed_postings<M: Meter>(
    alloc: Global,
    volume: &KeptVolume,
    meter: &mut M,
) -> Result<OwedPostings, NoMemory>
    requires documents { KeepsRule volume.now Documents }
    ensures { IfOk result (λ owed. IsAllOwed volume.now owed) }
{
    let mut table = PostingTable::with_room(alloc, volume)?;
    let mut known = KnownKeys::for_many_documents(alloc, volume.geometry.lists())?;
    let mut all_exist = true;
    let checks = (volume.log.slots.len() as u64).saturating_mul(2);
    for slot in 0..volume.geometry.slots() {
        let Some(stored) = volume.stored_slot(slot) else {
            continue;
        };
        meter.show(Work::Checking, u64::from(slot), checks);
        let found = postings_of(alloc, &volume.kept, &volume.geometry, &stored, &mut known)?;
        let Some(rows) = found else {
            all_exist = false;
            continue;
        };
        table.add_all(&rows)?;
    }
    table.sort();
    Ok(OwedPostings { table, all_exist })
}

/// How many postings the journals of stored slots hold.
fn journaled_postings(volume: &KeptVolume) -> usize {
    let mut count: usize = 0;
    for slot in 0..volume.geometry.slots() {
        let Some(holder) = volume.stored_slot(slot) else {
            continue;
        };
        count = count.saturating_add(postings_journaled_by(&volume.kept, &holder));
    }
    count
}

/// How many the journal of one holds.
fn postings_journaled_by(kept: &KeptCells, stored: &StoredSlot) -> usize
    requires { FitsInSlot stored.now }
{
    let from = stored.journal_at();
    let mut count: usize = 0;
    for place in 0..stored.journal {
        let Some(cell) = kept.at(from + place) else {
            continue;
        };
        if let Some(RecordCell::Posting { .. }) = decode(cell, address_of(cell)) {
            count = count.saturating_add(1);
        }
    }
    count
}

/// The list of such a number, and the posting that it and a tag make.
pub(crate) fn listed_in(row: &(u64, [u8; 6])) -> (u16, PostingFields)
    ensures { (l : ℕ) (p : PostingFields) → FitsRow l p → row.now ≡ (number_of l p.key p.last, p.tag)
        → (result.0 ≡ l) × (result.1 ≡ p) }
{
    let list = (row.0 / LIST_STEP % LISTS) as u16;
    let key = (row.0 / KEY_STEP % KEYS) as u32;
    let last = (row.0 % KEY_STEP) as u8;
    (
        list,
        PostingFields {
            key,
            last,
            tag: row.1,
        },
    )
}

/// A list, a key and a greatest ordinal as one number.
fn number_of(list: u16, key: u32, last: u8) -> u64
    ensures { result ≡ number_of list key last }
{
    u64::from(list) * LIST_STEP + u64::from(key) * KEY_STEP + u64::from(last)
}
