//! A body, or another text, taken from a source to its end.
ghost use Rattle.std.specs.Prelude.{◌≡◌, ◌≤◌, ℕ, List, length, IfOk, IfErr};
ghost use Rattle.host_ports.specs.Sources.{Gives, IsAtEnd};
ghost use Rattle.volume_commands.specs.Taking.{AreBytesUpTo, BodyFails, TakePieceEnds, refusal_of_body_fault};
ghost use Rattle.volume_commands.specs.declared.body.BodyFault.TheVariants as faults;

use cell_types::{NoMemory, Refusal, memory};
use host_ports::{Failed, Source};
use std::alloc::Global;

/// The greatest number of bytes that the text of a receipt may have. No command takes more.
pub const MAX_RECEIPT_BYTES: usize = 67_108_864;

/// How many bytes a source is asked for at once.
const PIECE_BYTES: usize = 4_096;

/// What keeps a body from being taken.
#[derive(Clone, Copy, Debug, PartialEq, Eq)]
pub enum BodyFault {
    /// The source gave one byte more than is taken.
    TooLong,
    /// A call of the source failed.
    SourceFailed,
    /// No memory was to be had.
    NoMemory(NoMemory),
}

impl From<Failed> for BodyFault {
    ghost from_gives = { λ _ fault. fault ≡ faults.SourceFailed };

    fn from(_: Failed) -> BodyFault {
        BodyFault::SourceFailed
    }
}

impl From<NoMemory> for BodyFault {
    ghost from_gives = { λ lack fault. fault ≡ faults.NoMemory lack };

    fn from(lack: NoMemory) -> BodyFault {
        BodyFault::NoMemory(lack)
    }
}

impl From<BodyFault> for Refusal {
    ghost from_gives = { λ fault refusal. refusal ≡ refusal_of_body_fault fault };

    fn from(fault: BodyFault) -> Refusal {
        match fault {
            BodyFault::TooLong => Refusal::TooLong,
            BodyFault::SourceFailed => Refusal::SourceFault,
            BodyFault::NoMemory(lack) => Refusal::from(lack),
        }
    }
}

/// Takes what the source gives up to its end. Where that is more than so many bytes, it stops at the first byte too
/// many.
pub fn take_input<S: Source>(
    alloc: Global,
    source: &mut S,
    limit: usize,
) -> Result<Vec<u8>, BodyFault>
    requires limit { limit ≤ MAX_RECEIPT_BYTES }
    ensures body { IfOk result (λ body. AreBytesUpTo limit body.items
        × Gives (S.state source.old).left (S.state source.new).left body.items × IsAtEnd (S.state source.new).left) }
    ensures fails { IfErr result (λ fault. (given : List ℕ)
        × Gives (S.state source.old).left (S.state source.new).left given
        × BodyFails limit given (S.state source.old) (S.state source.new) fault) }
{
    let mut body = Vec::new(alloc);
    let mut piece = [0; PIECE_BYTES];
    loop {
        // One byte more than the limit is asked for, to tell a body of the greatest length from a longer one.
        let room = PIECE_BYTES.min(limit + 1 - body.len());
        let taken = take_piece(source, &mut piece[..room], &mut body)?;
        if taken == 0 {
            return Ok(body);
        }
        if body.len() > limit {
            return Err(BodyFault::TooLong);
        }
    }
}

/// Takes some of the next bytes into the piece, and puts them behind the body. Answers how many.
fn take_piece<S: Source>(
    source: &mut S,
    piece: &mut [u8],
    body: &mut Vec<u8>,
) -> Result<usize, BodyFault>
    ensures { TakePieceEnds (length piece.old) body.old.items body.new.items
        (S.state source.old) (S.state source.new) result }
{
    let taken = source.take(piece)?;
    memory::extend_from_slice(body, &piece[..taken])?;
    Ok(taken)
}
