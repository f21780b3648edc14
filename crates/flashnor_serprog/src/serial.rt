//! The connector of the program: programmers that speak serprog, at the serial ports of the system.
ghost use Rattle.std.proofs.Math.Logic.{∥∥₁_map};
ghost use Rattle.std.proofs.lemmas.Bool.{false≢true};
ghost use Rattle.serprog_board.specs.Reached.{IsReachedAt};

use crate::port::DevicePort;
use board_progress::Terminal;
use nor_buses::ChangedByte;
use nor_console::SystemReason;
use nor_files::LockFile;
use nor_model::{Bus, Stopped};
use nor_serprog::Port;
use serprog_board::{
    Board, BoardBus, Causes, Connector, Layers, ProgrammerFault, Rules, Setting, Unconnected,
    connect_over,
};
use std::fs::{File, OpenOptions};
use std::os::unix::fs::FileTypeExt;
use std::{fs, io};

/// The bus to the chip at a serial port of the system: a `BoardBus` over a `DevicePort`. This type names no layers,
/// because Rattle can't check calls with so many nested type arguments.
#[derive(Drop)]
pub struct SerialBoard<'b> {
    board: BoardBus<Layers<DevicePort, &'b HostRuntime>>,
}

impl<'b> Bus for SerialBoard<'b> {
    ghost state = { λ serial. ⟦<BoardBus<Layers<DevicePort, &'b HostRuntime>> as Bus>⟧.state serial.board };

    ghost reaches = { λ _ honest. absurd (false≢true honest) };

    fn transfer(&mut self, out: &[u8], reply: &mut [u8]) -> Result<(), Stopped> {
        self.board.transfer(out, reply)
    }

    fn has_further_types(&self) -> bool {
        self.board.has_further_types()
    }
}

impl<'b> Board for SerialBoard<'b> {
    ghost expected = { λ serial. ⟦<BoardBus<Layers<DevicePort, &'b HostRuntime>> as Board>⟧.expected serial.board };

    ghost asked = { λ serial. ⟦<BoardBus<Layers<DevicePort, &'b HostRuntime>> as Board>⟧.asked serial.board };

    ghost reads_most = { λ serial.
        ⟦<BoardBus<Layers<DevicePort, &'b HostRuntime>> as Board>⟧.reads_most serial.board };

    ghost accounts = { λ serial. ∥∥₁_map serial.board.layers.accounted (λ passed. (_, passed)) };

    fn longest_read(&self) -> u32 {
        self.board.longest_read()
    }

    fn has_small_pages(&self) -> bool {
        self.board.has_small_pages()
    }

    fn has_begun(&self) -> bool {
        self.board.has_begun()
    }

    fn changed_byte(&self) -> Option<ChangedByte> {
        self.board.changed_byte()
    }

    fn causes(&self) -> Causes<'_> {
        self.board.causes()
    }
}

/// Connects to chips at programmers that speak serprog, at the serial ports of the system.
#[derive(Drop)]
pub struct Serprog<'b> {
    rt: &'b HostRuntime,
}

impl<'b> Serprog<'b> {
    pub fn new(rt: &'b HostRuntime) -> Serprog<'b> {
        Serprog { rt }
    }
}

impl<'b> Connector for Serprog<'b> {
    type Board = SerialBoard<'b>;

    ghost finds = { λ device serial.
        IsReachedAt ⟦<DevicePort as Port>⟧.state (⟦<SerialBoard<'b> as Bus>⟧.state serial) };

    fn connect(
        &mut self,
        terminal: Terminal<'_>,
        setting: &Setting<'_>,
        image: Option<Vec<u8>>,
        rules: Rules,
    ) -> Result<SerialBoard<'b>, Unconnected> {
        let port = DevicePort::new(open_device(self.rt, setting.device)?);
        let board = connect_over(self.rt, port, terminal, setting, image, rules)?;
        Ok(SerialBoard { board })
    }
}

// Opens the device and locks it against a second run. If the file is no character device, opens nothing and returns
// `NoDevice`, because the first bytes sent would overwrite a regular file.
fn open_device(rt: &HostRuntime, name: &str) -> Result<File, ProgrammerFault> {
    match fs::metadata(rt, name) {
        Ok(metadata) if metadata.file_type().is_char_device() => {}
        Ok(_) => return Err(ProgrammerFault::NoDevice),
        Err(error) => return Err(not_opened(&error)),
    }
    let device = match OpenOptions::new().read(true).write(true).open(rt, name) {
        Ok(device) => device,
        Err(error) => return Err(not_opened(&error)),
    };
    match device.lock_alone() {
        Ok(true) => Ok(device),
        Ok(false) => Err(ProgrammerFault::InUse),
        Err(error) => Err(not_opened(&error)),
    }
}

fn not_opened(error: &io::Error) -> ProgrammerFault {
    ProgrammerFault::NotOpened(SystemReason::of_reading(error))
}
