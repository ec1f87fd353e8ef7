//! The lines of a file of rows, with each loop and each named piece written out.
//!
//! The lines between `for FROM TO` and `end` come once for each number, both included; in them `{n}` is the number, `{n3}` the
//! same in three digits, and `{x}` in eight hexadecimal ones. Those between `let NAME` and `end` come wherever `with NAME`
//! stands behind them, in a loop and in another piece too. Blank lines, and those that begin with `--`, are left out.
//!
//! A line of these that cannot be what it says comes as it is, and so fails its row: a block in a block, one that is never
//! closed, an `end` of none, numbers that are none, a name that has no piece.
use row_files::two_numbers;
use std::alloc::{AllocError, Global};

/// A line as it is carried out, and its number in the file.
#[derive(Drop)]
pub struct Line {
    pub number: usize,
    pub text: String,
}

/// What becomes of the lines of a block.
#[derive(Clone, Copy)]
enum Kind<'a> {
    Loop { from: u32, to: u32 },
    Piece { name: &'a str },
}

/// A block: where it begins, and its lines with their numbers.
#[derive(Drop)]
struct Block<'a> {
    number: usize,
    text: &'a str,
    kind: Kind<'a>,
    lines: Vec<(usize, &'a str)>,
}

/// The lines of a text so far.
#[derive(Drop)]
struct Lines<'a> {
    written: Vec<Line>,
    pieces: Vec<Block<'a>>,
    open: Option<Block<'a>>,
}

/// The lines of a text, with each block written out.
pub fn written_out(alloc: Global, text: &str) -> Result<Vec<Line>, AllocError> {
    let mut all = Lines {
        written: Vec::new(alloc),
        pieces: Vec::new(alloc),
        open: None,
    };
    all.take_all(alloc, text)?;
    all.give_up(alloc)?;
    Ok(all.written)
}

impl<'a> Lines<'a> {
    /// Takes the lines of a text.
    fn take_all(&mut self, alloc: Global, text: &'a str) -> Result<(), AllocError> {
        for (at, line) in text.lines().enumerate() {
            if !line.trim().is_empty() && !line.starts_with("--") {
                self.take(alloc, at.saturating_add(1), line)?;
            }
        }
        Ok(())
    }

    /// Puts the line that opened a block behind the others, where that is never closed.
    fn give_up(&mut self, alloc: Global) -> Result<(), AllocError> {
        match self.open.take() {
            Some(block) => self.write(alloc, block.number, block.text),
            None => Ok(()),
        }
    }

    /// Takes the next line of the text.
    fn take(&mut self, alloc: Global, number: usize, text: &'a str) -> Result<(), AllocError> {
        if text == "end" {
            return self.close(alloc, number, text);
        }
        if let Some(name) = text.strip_prefix("with ") {
            return self.put_piece(alloc, number, text, name);
        }
        match kind_of(text) {
            Some(kind) if self.open.is_none() => {
                let lines = Vec::new(alloc);
                self.open = Some(Block {
                    number,
                    text,
                    kind,
                    lines,
                });
                Ok(())
            }
            _ => self.put(alloc, number, text),
        }
    }

    /// Puts a line into the block that is open, or behind the others.
    fn put(&mut self, alloc: Global, number: usize, text: &'a str) -> Result<(), AllocError> {
        match &mut self.open {
            Some(block) => block.lines.push((number, text))?,
            None => self.write(alloc, number, text)?,
        }
        Ok(())
    }

    /// Puts a line behind the others.
    fn write(&mut self, alloc: Global, number: usize, text: &str) -> Result<(), AllocError> {
        let text = text.to_string(alloc)?;
        self.written.push(Line { number, text })?;
        Ok(())
    }

    /// Puts the lines of a piece where its name stands.
    fn put_piece(
        &mut self,
        alloc: Global,
        number: usize,
        text: &'a str,
        name: &str,
    ) -> Result<(), AllocError> {
        let Some(lines) = self.piece(alloc, name)? else {
            return self.put(alloc, number, text);
        };
        for &(number, text) in &lines {
            self.put(alloc, number, text)?;
        }
        Ok(())
    }

    /// The lines of the piece of this name, the last one if there are several.
    fn piece(
        &self,
        alloc: Global,
        name: &str,
    ) -> Result<Option<Vec<(usize, &'a str)>>, AllocError> {
        let mut found = None;
        for block in &self.pieces {
            if matches!(block.kind, Kind::Piece { name: other } if other == name) {
                found = Some(&block.lines);
            }
        }
        let Some(found) = found else {
            return Ok(None);
        };
        let mut lines = Vec::new(alloc);
        lines.extend_from_slice(found)?;
        Ok(Some(lines))
    }

    /// Closes the block that is open.
    fn close(&mut self, alloc: Global, number: usize, text: &str) -> Result<(), AllocError> {
        let Some(block) = self.open.take() else {
            return self.write(alloc, number, text);
        };
        match block.kind {
            Kind::Loop { from, to } => self.write_loop(alloc, from, to, &block.lines)?,
            Kind::Piece { .. } => self.pieces.push(block)?,
        }
        Ok(())
    }

    /// Writes the lines of a loop once for each number.
    fn write_loop(
        &mut self,
        alloc: Global,
        from: u32,
        to: u32,
        lines: &[(usize, &'a str)],
    ) -> Result<(), AllocError> {
        for turn in from..to.saturating_add(1) {
            let digits = format!(in alloc; "{turn}")?;
            let three = format!(in alloc; "{turn:03}")?;
            let eight = format!(in alloc; "{turn:08x}")?;
            for &(number, text) in lines {
                let text = text.replace(alloc, "{n}", digits.as_str())?;
                let text = text.replace(alloc, "{n3}", three.as_str())?;
                let text = text.replace(alloc, "{x}", eight.as_str())?;
                self.written.push(Line { number, text })?;
            }
        }
        Ok(())
    }
}

/// Which block begins with this line.
fn kind_of(text: &str) -> Option<Kind<'_>> {
    if let Some(numbers) = text.strip_prefix("for ") {
        let (from, to) = two_numbers(numbers)?;
        return if from <= to {
            Some(Kind::Loop { from, to })
        } else {
            None
        };
    }
    let name = text.strip_prefix("let ")?;
    Some(Kind::Piece { name })
}
