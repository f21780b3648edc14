//! A port over a device file, for example a serial port that stty has set up.
ghost use Rattle.std.proofs.lemmas.Bool.{false≢true};
ghost use Rattle.nor_serprog.specs.Device.{unknown_port};
ghost use Rattle.nor_serprog.specs.Wire.{asked_on, received_on};

use crate::fault::Fault;
use nor_serprog::{Port, Wire};
use std::fs::{File, OpenOptions, TryLockError};
use std::io::{Read, Write};
use std::os::unix::fs::FileTypeExt;
use std::{fs, io};

/// A port over a device file. Its reads must time out (`stty min 0 time 50`), because otherwise a silent programmer
/// blocks the program.
#[derive(Drop)]
pub struct DevicePort<F> {
    file: F,
    wire: Wire,
}

impl DevicePort<File> {
    /// Opens a character device, and locks it against other programs that lock it. Returns `NoDevice` for another type
    /// of file, `InUse` if another program has locked the device, and `System` for any other failure.
    pub fn open(rt: &HostRuntime, name: &str) -> Result<DevicePort<File>, Fault> {
        if !fs::metadata(rt, name)?.file_type().is_char_device() {
            return Err(Fault::NoDevice);
        }
        let mut options = OpenOptions::new();
        let file = options.read(true).write(true).open(rt, name)?;
        match file.try_lock() {
            Ok(()) => Ok(DevicePort {
                file,
                wire: Wire::new(),
            }),
            Err(TryLockError::WouldBlock) => Err(Fault::InUse),
            Err(TryLockError::Error(error)) => Err(Fault::System(error)),
        }
    }
}

impl<F: Read + Write> Port for DevicePort<F> {
    type Cause = io::Error;

    ghost state = { λ port. unknown_port (asked_on port.wire) (received_on port.wire) };

    ghost reaches = { λ _ honest. absurd (false≢true honest) };

    fn send(&mut self, bytes: &[u8]) -> io::Result<()> {
        self.wire.asked(bytes);
        self.file.write_all(bytes)
    }

    fn receive(&mut self, bytes: &mut [u8]) -> io::Result<()> {
        self.file.read_exact(bytes)?;
        self.wire.received(bytes);
        Ok(())
    }
}
