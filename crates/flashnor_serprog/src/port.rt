//! The serial port of a programmer as a `Port` of nor_serprog, over a device such as /dev/ttyACM0.
ghost use Rattle.std.proofs.lemmas.Bool.{false≢true};
ghost use Rattle.std.specs.Prelude.{◌≡◌, []};
ghost use Rattle.nor_serprog.specs.Device.{unknown_port};
ghost use Rattle.nor_serprog.specs.Wire.{asked_on, received_on};

use nor_serprog::{Port, Wire};
use serprog_board::PortFault;
use std::fs::File;
use std::io::{ErrorKind, Read, Write};

/// A port over the device of a programmer. Its contract assumes nothing about the device.
#[derive(Drop)]
pub struct DevicePort {
    file: File,
    wire: Wire,
}

impl DevicePort {
    /// Returns a port over `file`, which must be open for reading and writing.
    pub fn new(file: File) -> DevicePort
        ensures unasked { asked_on result.wire ≡ [] }
    {
        DevicePort {
            file,
            wire: Wire::new(),
        }
    }
}

impl Port for DevicePort {
    type Cause = PortFault;

    ghost state = { λ port. unknown_port (asked_on port.wire) (received_on port.wire) };

    ghost reaches = { λ _ honest. absurd (false≢true honest) };

    fn send(&mut self, bytes: &[u8]) -> Result<(), PortFault> {
        self.wire.asked(bytes);
        self.file.write_all(bytes).map_err(PortFault::System)
    }

    fn receive(&mut self, bytes: &mut [u8]) -> Result<(), PortFault> {
        match self.file.read_exact(bytes) {
            Ok(()) => {
                self.wire.received(bytes);
                Ok(())
            }
            Err(error) if error.kind() == ErrorKind::UnexpectedEof => Err(PortFault::Silent),
            Err(error) => Err(PortFault::System(error)),
        }
    }
}
