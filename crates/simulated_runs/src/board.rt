//! The connector of the simulation, and the bus that it returns.
ghost use Rattle.std.proofs.Math.Logic.{∥∥₁_map};
ghost use Rattle.nor_buses.specs.Checked.{bus_of};
ghost use Rattle.nor_buses.specs.Paced.{paced_of};
ghost use Rattle.nor_buses.specs.Splitting.{split_of};
ghost use Rattle.nor_buses.specs.Twice.{twice_of};
ghost use Rattle.nor_buses.specs.Watched.{watched_by};
ghost use Rattle.nor_serprog.specs.Batching.{port_in};
ghost use Rattle.serprog_board.specs.BoardBus.{layers_of, reader_in};
ghost use Rattle.serprog_session.specs.SimPort.{simulated_chip};
ghost use Rattle.simulated_runs.specs.Played.{IsPlayed};

use crate::chip_files::read_port;
use crate::port::SimulatedPort;
use crate::stop::Stop;
use board_progress::Terminal;
use nor_buses::ChangedByte;
use nor_model::{Bus, Stopped};
use nor_serprog::Port;
use serprog_board::{
    Board, BoardBus, Causes, Connector, Layers, Rules, Setting, Unconnected, connect_over,
};

/// The bus to the simulated chip: a `BoardBus` over a `SimulatedPort`. This type names no layers, as `SerialBoard` of
/// flashnor_serprog.
#[derive(Drop)]
pub struct SimulatedBoard<'b> {
    board: BoardBus<Layers<SimulatedPort<'b>, &'b HostRuntime>>,
}

impl<'b> Bus for SimulatedBoard<'b> {
    ghost state = { λ simulated.
        ⟦<BoardBus<Layers<SimulatedPort<'b>, &'b HostRuntime>> as Bus>⟧.state simulated.board };

    ghost reaches = { λ simulated honest.
        let reader = reader_in (layers_of simulated.board) in
        let port = port_in (paced_of (watched_by (split_of (bus_of (twice_of reader))))) in
        let flash = (simulated_chip port.port).flash in record {
          busy = flash.busy_in;
          kept1 = flash.kept1_in;
          kept2 = flash.kept2_in;
          bytes = flash.bytes_in;
        } };

    fn transfer(&mut self, out: &[u8], reply: &mut [u8]) -> Result<(), Stopped> {
        self.board.transfer(out, reply)
    }

    fn has_further_types(&self) -> bool {
        self.board.has_further_types()
    }
}

impl<'b> Board for SimulatedBoard<'b> {
    ghost expected = { λ simulated.
        ⟦<BoardBus<Layers<SimulatedPort<'b>, &'b HostRuntime>> as Board>⟧.expected simulated.board };

    ghost asked = { λ simulated.
        ⟦<BoardBus<Layers<SimulatedPort<'b>, &'b HostRuntime>> as Board>⟧.asked simulated.board };

    ghost reads_most = { λ simulated.
        ⟦<BoardBus<Layers<SimulatedPort<'b>, &'b HostRuntime>> as Board>⟧.reads_most simulated.board };

    ghost accounts = { λ simulated. ∥∥₁_map simulated.board.layers.accounted (λ passed. (_, passed)) };

    fn longest_read(&self) -> u32 {
        self.board.longest_read()
    }

    fn has_small_pages(&self) -> bool {
        self.board.has_small_pages()
    }

    fn has_begun(&self) -> bool {
        self.board.has_begun()
    }

    fn changed_byte(&self) -> Option<ChangedByte> {
        self.board.changed_byte()
    }

    fn causes(&self) -> Causes<'_> {
        self.board.causes()
    }
}

/// Connects to the chip at a simulated port, whatever device `-p` names.
#[derive(Drop)]
pub struct Simulated<'b> {
    rt: &'b HostRuntime,
    stop: Stop,
}

impl<'b> Simulated<'b> {
    pub fn new(rt: &'b HostRuntime, stop: Stop) -> Simulated<'b> {
        Simulated { rt, stop }
    }
}

impl<'b> Connector for Simulated<'b> {
    type Board = SimulatedBoard<'b>;

    // The chip of the board meets the premises of the promises about chips on boards, so these promises aren't empty.
    ghost finds = { λ device simulated. IsPlayed (⟦<SimulatedBoard<'b> as Bus>⟧.state simulated) };

    /// Returns `NoChip` if the files of the chip can't be read.
    fn connect(
        &mut self,
        terminal: Terminal<'_>,
        setting: &Setting<'_>,
        image: Option<Vec<u8>>,
        rules: Rules,
    ) -> Result<SimulatedBoard<'b>, Unconnected> {
        let Ok(port) = read_port(self.rt, self.stop) else {
            return Err(Unconnected::NoChip);
        };
        let port = SimulatedPort::new(self.rt, port);
        let board = connect_over(self.rt, port, terminal, setting, image, rules)?;
        Ok(SimulatedBoard { board })
    }
}
