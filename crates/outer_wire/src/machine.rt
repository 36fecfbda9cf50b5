//! The machine's wire. It is trusted, and tells nothing of what passed.

ghost use Rattle.std.specs.Prelude.{◌≡◌};
ghost use Rattle.std.proofs.Common.{arith};
ghost use Rattle.outer_wire.specs.Machine.{machine_wire_shown};

use crate::wire::Wire;
use outer_io::{Failed, Faults};
use std::io::{Read, Write};
use std::marker::Model;

/// A reader and a writer of the machine, such as the standard input and output.
///
/// Each error of std is a fault, and so is a write that takes nothing of a non-empty piece. No call is tried again, and
/// none flushes the writer. Neither of the two must buffer anything.
#[derive(Drop)]
pub struct MachineWire<I: Read + Drop, O: Write + Drop> {
    reader: I,
    writer: O,
    faults: Faults,
}

impl<I: Read + Drop, O: Write + Drop> Model for MachineWire<I, O> {
    ghost use Rattle.outer_wire.specs.Machine.{MachineWired};

    ghost Value = { MachineWired };

    ghost view = { λ w. record { faults = w.faults.count } };
}

impl<I: Read + Drop, O: Write + Drop> MachineWire<I, O> {
    /// What receives from this reader and sends to this writer.
    pub fn new(reader: I, writer: O) -> MachineWire<I, O>
        ensures { result ≡ record { faults = 0 } }
    {
        MachineWire {
            reader,
            writer,
            faults: Faults::none(),
        }
    }
}

impl<I: Read + Drop, O: Write + Drop> Wire for MachineWire<I, O> {
    ghost shown = { machine_wire_shown };

    ghost counted = { λ w. Prim.omega arith };

    fn receive(&mut self, into: &mut [u8]) -> Result<usize, Failed> {
        match self.reader.read(into) {
            Ok(count) => Ok(count),
            Err(_) => Err(self.faults.fault()),
        }
    }

    fn send(&mut self, piece: &[u8]) -> Result<usize, Failed> {
        match self.writer.write(piece) {
            Ok(count) if count > 0 || piece.is_empty() => Ok(count),
            _ => Err(self.faults.fault()),
        }
    }
}
