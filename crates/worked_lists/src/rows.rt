//! Which rows of a text agree.
use crate::world::World;
use row_files::{Judge, Tally};
use std::alloc::{AllocError, Global};

/// What the low crates of the index answer. Behind a line that is not so, the rest of its row is left out.
pub struct Rows;

impl Judge for Rows {
    fn judge(alloc: Global, text: &str) -> Result<Tally, AllocError> {
        carry_out_rows(alloc, text)
    }
}

/// Carries out the rows of a text.
fn carry_out_rows(alloc: Global, text: &str) -> Result<Tally, AllocError> {
    let mut world = World::new(alloc)?;
    let mut rows: usize = 0;
    let mut wrong = Vec::new(alloc);
    let mut name = String::new(alloc);
    let mut is_wrong = false;
    for (at, line) in text.lines().enumerate() {
        if line.trim().is_empty() || line.starts_with("--") {
            continue;
        }
        if let Some(next) = line.strip_prefix("row ") {
            rows = rows.saturating_add(1);
            name = String::from_str(alloc, next)?;
            is_wrong = false;
        } else if !is_wrong {
            if let Some(said) = what_is_wrong(alloc, &mut world, line)? {
                let (name, number) = (name.as_str(), at.saturating_add(1));
                wrong.push(format!(in alloc; "{name}: line {number}: {said}")?)?;
                is_wrong = true;
            }
        }
    }
    Ok(Tally { rows, wrong })
}

/// What is said of a line if it is not so: the line, and what came. A line without an answer is to be done.
fn what_is_wrong(
    alloc: Global,
    world: &mut World,
    line: &str,
) -> Result<Option<String>, AllocError> {
    let (asked, expected) = line.split_once(" = ").unwrap_or((line, "done"));
    let came = world.carry_out(alloc, asked)?;
    if came.as_str() == expected {
        return Ok(None);
    }
    Ok(Some(format!(in alloc; "{line} ({came})")?))
}
