//! A simulated port that keeps the state of its chip in files, so that it is known after the run.
ghost use Rattle.std.specs.Prelude.{◌≡◌};
ghost use Rattle.serprog_session.specs.SimPort.{simulated_chip};

use crate::chip_files::write_state;
use nor_model::opcodes::{READ_DATA, READ_ID, READ_SFDP, READ_STATUS1, READ_STATUS2, READ_UNIQUE};
use nor_serprog::Port;
use serprog_board::PortFault;
use serprog_session::SimPort;

const O_SPIOP: u8 = 0x13;

/// A well-behaved port over a `SimPort`. Each failure looks like that of a programmer that is silent.
///
/// After each call, the state of the chip and the number of calls that are left are in the files (`write_state`). If
/// they can't be written, the files stay as they are, and `tests/played` finds a number of calls that didn't fall.
#[derive(Drop)]
pub struct SimulatedPort<'b> {
    rt: &'b HostRuntime,
    port: SimPort,
}

impl<'b> SimulatedPort<'b> {
    pub fn new(rt: &'b HostRuntime, port: SimPort) -> SimulatedPort<'b>
        ensures state { ⟦<SimulatedPort<'b> as Port>⟧.state result ≡ ⟦<SimPort as Port>⟧.state port }
    {
        SimulatedPort { rt, port }
    }

    fn keep(&self, is_changed: bool) {
        let _ = write_state(self.rt, &self.port, is_changed);
    }
}

impl<'b> Port for SimulatedPort<'b> {
    type Cause = PortFault;

    ghost state = { λ simulated. ⟦<SimPort as Port>⟧.state simulated.port };

    ghost reaches = { λ simulated honest. let flash = (simulated_chip simulated.port).flash in record {
      busy = flash.busy_in;
      kept1 = flash.kept1_in;
      kept2 = flash.kept2_in;
      bytes = flash.bytes_in;
    } };

    fn send(&mut self, bytes: &[u8]) -> Result<(), PortFault> {
        match self.port.send(bytes) {
            Ok(()) => {
                self.keep(!is_read(bytes));
                Ok(())
            }
            Err(_) => {
                self.keep(true);
                Err(PortFault::Silent)
            }
        }
    }

    fn receive(&mut self, bytes: &mut [u8]) -> Result<(), PortFault> {
        match self.port.receive(bytes) {
            Ok(()) => {
                self.keep(false);
                Ok(())
            }
            Err(_) => {
                self.keep(true);
                Err(PortFault::Silent)
            }
        }
    }
}

// Returns whether these bytes change no chip: they are a frame that reads, or no frame of O_SPIOP.
fn is_read(bytes: &[u8]) -> bool {
    match bytes {
        [O_SPIOP, _, _, _, _, _, _, opcode, ..] => {
            matches!(
                *opcode,
                READ_DATA | READ_STATUS1 | READ_STATUS2 | READ_UNIQUE | READ_SFDP | READ_ID
            )
        }
        _ => true,
    }
}
