//! Which rows of a text agree.
use crate::acts::act_of;
use crate::bench::Bench;
use std::alloc::{AllocError, Global};

/// How many rows there are, and what is said of those that do not agree.
#[derive(Drop)]
pub struct Tally {
    pub rows: usize,
    pub wrong: Vec<String>,
    /// The row that is carried out: its name, how many of its lines were, and whether one was not so.
    name: String,
    lines: usize,
    is_wrong: bool,
}

/// Carries out the rows of a text.
pub fn judge(alloc: Global, text: &str) -> Result<Tally, AllocError> {
    let mut tally = Tally {
        rows: 0,
        wrong: Vec::new(alloc),
        name: String::new(alloc),
        lines: 0,
        is_wrong: false,
    };
    let mut bench = Bench::new(alloc);
    tally.take_all(alloc, &mut bench, text)?;
    Ok(tally)
}

impl Tally {
    /// Carries out the lines of a text, each row with what it makes itself.
    fn take_all(&mut self, alloc: Global, bench: &mut Bench, text: &str) -> Result<(), AllocError> {
        for (at, line) in text.lines().enumerate() {
            if let Some(name) = line.strip_prefix("row ") {
                self.end(alloc)?;
                bench.clear(alloc);
                self.begin(alloc, name)?;
            } else if !line.is_empty() && !line.starts_with("--") {
                self.take(alloc, bench, at.saturating_add(1), line)?;
            }
        }
        self.end(alloc)
    }

    /// Begins a row of this name.
    fn begin(&mut self, alloc: Global, name: &str) -> Result<(), AllocError> {
        self.name = name.to_string(alloc)?;
        self.rows = self.rows.saturating_add(1);
        self.lines = 0;
        self.is_wrong = false;
        Ok(())
    }

    /// Ends a row, which is wrong if it has no line.
    fn end(&mut self, alloc: Global) -> Result<(), AllocError> {
        if self.lines > 0 || self.rows == 0 {
            return Ok(());
        }
        let name = self.name.as_str();
        self.wrong
            .push(format!(in alloc; "{name}: it has no line")?)?;
        Ok(())
    }

    /// Carries out a line, unless an earlier one of its row was not so.
    fn take(
        &mut self,
        alloc: Global,
        bench: &mut Bench,
        number: usize,
        line: &str,
    ) -> Result<(), AllocError> {
        self.lines = self.lines.saturating_add(1);
        if self.is_wrong {
            return Ok(());
        }
        let plain = line.replace(alloc, "_", "")?;
        let Some(came) = differing(alloc, bench, plain.as_str())? else {
            return Ok(());
        };
        self.is_wrong = true;
        let name = self.name.as_str();
        let told = format!(in alloc; "{name}: line {number}: {line} ({came})")?;
        self.wrong.push(told)?;
        Ok(())
    }
}

/// What came of a line, if it is not what the line says.
fn differing(alloc: Global, bench: &mut Bench, line: &str) -> Result<Option<String>, AllocError> {
    let Some((asked, wanted)) = line.split_once(" =") else {
        return Ok(Some("nothing is expected".to_string(alloc)?));
    };
    let Some(act) = act_of(asked) else {
        return Ok(Some("no such line".to_string(alloc)?));
    };
    let came = bench.answer(alloc, &act)?.text(alloc)?;
    if came.as_str() == wanted.strip_prefix(' ').unwrap_or(wanted) {
        return Ok(None);
    }
    Ok(Some(came))
}
