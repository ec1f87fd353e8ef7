//! A sink that gathers what it gets.
ghost use Rattle.std.specs.Prelude.{◌≡◌, [], IfNone, IfOk};
ghost use Rattle.host_ports.specs.Memories.{gathered_of};

use crate::{Failed, Sink};
use cell_types::{NoMemory, memory};
use std::alloc::Global;
use std::marker::Model;

/// A sink that holds what it got. It takes memory as it goes, and a call fails where there is none, and nowhere else.
#[derive(Drop)]
pub struct Gathered {
    bytes: Vec<u8>,
    /// What the last call that failed was told.
    lack: Option<NoMemory>,
    /// How many calls have failed. It stands still at its end.
    faults: u64,
}

impl Model for Gathered {
    ghost use Rattle.std.specs.Prelude.{◌≡◌, None};
    ghost use Rattle.host_ports.specs.Memories.{GatheredBytes};

    ghost Value = { GatheredBytes };

    ghost view = { λ g. record { held = g.bytes.items; faults = g.faults } };

    ghost invariant = { λ g. g.lack ≡ None → g.faults ≡ 0 };
}

impl Gathered {
    /// Nothing yet, and room for so many bytes.
    pub fn with_room(alloc: Global, bytes: usize) -> Result<Gathered, NoMemory>
        ensures { IfOk result (λ gathered. gathered ≡ record { held = []; faults = 0 }) }
    {
        let bytes = memory::with_capacity(alloc, bytes)?;
        Ok(Gathered {
            bytes,
            lack: None,
            faults: 0,
        })
    }

    /// What it holds.
    pub fn bytes(&self) -> &[u8]
        ensures { result.now ≡ self.now.held }
    {
        self.bytes.as_slice()
    }

    /// Which memory lacked, `None` where no call has failed.
    pub fn lack(&self) -> Option<NoMemory>
        ensures { IfNone result (self.now.faults ≡ 0) }
    {
        self.lack
    }
}

impl Sink for Gathered {
    ghost state = { gathered_of };

    fn put(&mut self, piece: &[u8]) -> Result<usize, Failed> {
        match memory::extend_from_slice(&mut self.bytes, piece) {
            Ok(()) => Ok(piece.len()),
            Err(lack) => {
                self.lack = Some(lack);
                self.faults = self.faults.saturating_add(1);
                Err(Failed)
            }
        }
    }
}
