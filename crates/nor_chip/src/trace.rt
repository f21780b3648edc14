//! A bus that logs each transaction that succeeds.
ghost use Rattle.std.specs.Prelude.{◌≡◌, true, false, OnOk};
ghost use Rattle.std.specs.Io.KnownBytes.{Appends, Keeps};
ghost use Rattle.hex.specs.Hex.{encode_lower};
ghost use Rattle.nor_model.specs.Bus.{Allows, Transfers};
ghost use Rattle.nor_chip.specs.Trace.{traced_by, log_of, has_lost, traced_line, Traces};

use nor_model::{Bus, Meter, Stopped};
use std::io::{self, Write};

const PIECE: usize = 64;

/// A bus that passes transactions on to an inner bus, and logs one line for each transaction that succeeds: the bytes
/// sent, in hexadecimal. If 1 to 3 bytes were received, ` > ` and these bytes follow; if more, ` > N bytes` follows.
///
/// The bus buffers nothing. If each write to the log costs a system call, use a log with a buffer, such as `BufWriter`.
#[derive(Drop)]
pub struct TraceBus<B, L> {
    bus: B,
    log: L,
    lost: bool,
}

impl<B: Bus + Drop, L: Write + Drop> TraceBus<B, L> {
    pub fn new(bus: B, log: L) -> TraceBus<B, L>
        ensures state { ⟦<TraceBus<B, L> as Bus>⟧.state result ≡ B.state bus }
        ensures log { log_of result ≡ log }
        ensures lost { has_lost result ≡ false }
    {
        TraceBus {
            bus,
            log,
            lost: false,
        }
    }

    /// Returns whether some line could not be written completely, or a flush failed. Once true, the result stays true.
    pub fn lost(&self) -> bool
        ensures { result ≡ has_lost self.now }
    {
        self.lost
    }

    /// Flushes the log's own buffer. If the flush fails, `lost` returns true from then on.
    pub fn flush(&mut self)
        ensures state { ⟦<TraceBus<B, L> as Bus>⟧.state self.new ≡ ⟦<TraceBus<B, L> as Bus>⟧.state self.old }
        ensures log { Keeps (L.contents (log_of self.old)) (L.contents (log_of self.new)) }
        ensures lost { has_lost self.old ≡ true → has_lost self.new ≡ true }
    {
        if self.log.flush().is_err() {
            self.lost = true;
        }
    }

    /// Returns the inner bus, in its present state, and drops the log.
    pub fn into_inner(self) -> B
        ensures { B.state result ≡ ⟦<TraceBus<B, L> as Bus>⟧.state self }
    {
        let TraceBus {
            bus,
            log: _,
            lost: _,
        } = self;
        bus
    }
}

impl<B: Bus, L: Write> Bus for TraceBus<B, L> {
    ghost state = { λ traced. B.state traced.bus };

    ghost reaches = { λ traced honest. B.reaches traced.bus honest };

    fn transfer(&mut self, out: &[u8], reply: &mut [u8]) -> Result<(), Stopped>
        ensures law { Transfers out.now reply.old reply.new result
            (B.state (traced_by self.old)) (B.state (traced_by self.new)) }
        ensures traces { Traces L.contents out.now reply.new result self.old self.new }
    {
        self.bus.transfer(out, reply)?;
        if write_line(&mut self.log, out, reply).is_err() {
            self.lost = true;
        }
        Ok(())
    }

    fn has_further_types(&self) -> bool {
        self.bus.has_further_types()
    }
}

impl<B: Meter, L: Write> Meter for TraceBus<B, L> {
    fn allow(&mut self, n: u64)
        ensures allows { Allows n (B.state (traced_by self.old)) (B.state (traced_by self.new)) }
        ensures log { log_of self.new ≡ log_of self.old }
        ensures lost { has_lost self.new ≡ has_lost self.old }
    {
        self.bus.allow(n);
    }
}

fn write_line<L: Write>(log: &mut L, out: &[u8], reply: &[u8]) -> io::Result<()>
    ensures { OnOk result (Appends (L.contents log.old) (L.contents log.new) (traced_line out.now reply.now)) }
{
    write_digits(log, out)?;
    if reply.len() > 3 {
        write!(log, " > {} bytes", reply.len())?;
    } else if !reply.is_empty() {
        log.write_all(b" > ")?;
        write_digits(log, reply)?;
    }
    log.write_all(b"\n")
}

fn write_digits<L: Write>(log: &mut L, bytes: &[u8]) -> io::Result<()>
    ensures { OnOk result (Appends (L.contents log.old) (L.contents log.new) (encode_lower bytes.now)) }
{
    let mut rest = bytes;
    while !rest.is_empty() {
        let (piece, later) = rest.split_at(rest.len().min(PIECE));
        let mut digits = [0; 2 * PIECE];
        let digits = &mut digits[..2 * piece.len()];
        hex::encode_to_slice(piece, &mut *digits).unwrap();
        log.write_all(digits)?;
        rest = later;
    }
    Ok(())
}
