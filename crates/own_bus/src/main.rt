//! An example of how to connect flashnor's engine to a programmer of your own, through the traits `Port` and `Bus`.
//! `docs/OWN_BUS.md` explains the example.
//!
//! Without arguments the example simulates a serial programmer and a chip: it reads the chip out, changes the chip with
//! a journal, and restores it. Then it starts the same change over simulated wires, which are cut before the chip is
//! modified. If the argument is the name of a serial port, the example only identifies the chip there.
#![tactic(auto)]

ghost use Rattle.std.specs.Prelude.{◌≡◌, false};

mod device;
mod fault;
mod own;
mod played;

use device::DevicePort;
use fault::Fault;
use nor_buses::{Paced, ReadTwice};
use nor_chip::{Bus, Config, Delays, Meter, SimBus};
use nor_files::{CreateFault, Disk, Store};
use nor_journal::{Journal, Vault};
use nor_probe::probe;
use nor_read::{read_out, verify};
use nor_serprog::{HandshakeFault, Link, Port, Programmer, SerprogBus};
use nor_session::{Report, Request, restore, session};
use own::OwnBus;
use played::{PlayedPort, PlayedWires};
use std::alloc::Global;
use std::{env, fs};

/// A bus over a port. It pauses between polls that show BUSY, and stops if two reads of data, SFDP or an ID differ.
type PortBus<'a, P> = Paced<ReadTwice<SerprogBus<P>>, &'a HostRuntime>;

fn main(rt: HostRuntime) -> Result<(), Fault> {
    match env::args(&rt)?.nth(1) {
        Some(device) => identify_chip(&rt, DevicePort::open(&rt, device.as_str())?),
        None => play(&rt),
    }
}

fn identify_chip<P: Port<Cause = std::io::Error> + Drop>(
    rt: &HostRuntime,
    port: P,
) -> Result<(), Fault>
    requires { (port : P) → (P.state port).honest ≡ false }
{
    let mut bus = open(rt, port)?;
    let found = probe(&mut bus, None)?;
    println!(rt; "A chip of {} bytes.", found.size)?;
    Ok(())
}

fn open<P: Port + Drop>(
    rt: &HostRuntime,
    port: P,
) -> Result<PortBus<'_, P>, HandshakeFault<P::Cause>>
    requires { (port : P) → (P.state port).honest ≡ false }
{
    let mut link = Link::new(port);
    let programmer = Programmer::identify(&mut link, None)?;
    let bus = ReadTwice::new(SerprogBus::new(link, programmer, true));
    Ok(Paced::new(bus, rt))
}

fn play(rt: &HostRuntime) -> Result<(), Fault> {
    let mut bus = open(rt, PlayedPort::new(erased_chip(rt.alloc())?))?;
    let found = probe(&mut bus, None)?;
    println!(rt; "A chip of {} bytes.", found.size)?;
    back_up(rt, &mut bus)?;
    let done = change(rt, &mut bus, "undo.journal")?;
    print_counts(rt, "Changed", &done)?;
    change_again(rt, &mut bus)?;
    undo(rt, &mut bus)?;
    cut_off(rt)
}

fn erased_chip(alloc: Global) -> Result<SimBus, Fault> {
    let idle = Delays { now: 0, each: 0 };
    let erased = vec![in alloc; 0xFF; 65536]?;
    let mut chip = SimBus::new(Config::tiny64(), erased, [0x00, 0x00], idle)?;
    chip.allow(u64::MAX);
    Ok(chip)
}

fn back_up<B: Bus>(rt: &HostRuntime, bus: &mut B) -> Result<(), Fault> {
    let mut backup = Disk::new(rt).vault_in_new("chip.bin")?;
    let report = read_out(bus, None, None, &mut backup)?;
    backup.seal()?;
    println!(rt; "Read out with {} transactions.", report.transactions)?;
    Ok(())
}

// Changes the chip to the bytes of `chip.bin`, but with 5Ah as the first byte. `journal` is the name of a new file.
fn change<B: Bus>(rt: &HostRuntime, bus: &mut B, journal: &str) -> Result<Report, Fault> {
    let mut image = fs::read(rt, "chip.bin")?;
    if let Some(first) = image.first_mut() {
        *first = 0x5A;
    }
    let mut vault = Disk::new(rt).vault_in_new(journal)?;
    let report = session(bus, &mut vault, &mut image, &Request::write().verified())?;
    Ok(report)
}

// Repeats the change. The file of its journal already exists, so the change must fail and leave the journal as it was.
fn change_again<B: Bus>(rt: &HostRuntime, bus: &mut B) -> Result<(), Fault> {
    let before = fs::read(rt, "undo.journal")?;
    match change(rt, bus, "undo.journal") {
        Err(Fault::NewFile(CreateFault::There)) => {}
        other => return other.map(|_| ()),
    }
    let after = fs::read(rt, "undo.journal")?;
    let state = if before.as_slice() == after.as_slice() {
        "as it was"
    } else {
        "damaged"
    };
    println!(rt; "The old journal is {state}.")?;
    Ok(())
}

fn undo<B: Bus>(rt: &HostRuntime, bus: &mut B) -> Result<(), Fault> {
    let saved = fs::read(rt, "undo.journal")?;
    let done = restore(bus, &Journal::read(&saved)?)?;
    print_counts(rt, "Restored", &done)?;
    let backup = fs::read(rt, "chip.bin")?;
    verify(bus, &backup, None, None)?;
    println!(rt; "The chip equals the backup.")?;
    Ok(())
}

fn print_counts(rt: &HostRuntime, what: &str, done: &Report) -> Result<(), Fault> {
    let Report {
        erases,
        programs,
        ..
    } = done;
    println!(rt; "{what} with {erases} erases and {programs} programs.")?;
    Ok(())
}

// Starts the change over wires that are cut after 10 transactions, while the session still scans the chip.
fn cut_off(rt: &HostRuntime) -> Result<(), Fault> {
    let mut bus = OwnBus::new(PlayedWires::new(erased_chip(rt.alloc())?, 10));
    let refusal = match change(rt, &mut bus, "second.journal") {
        Err(Fault::Refused(refusal)) => refusal,
        other => return other.map(|_| ()),
    };
    let sent = bus.wires.modifying;
    println!(rt;
        "Error {}: {refusal}, with {sent} modifying commands sent.",
        refusal.number()
    )?;
    if let Some(cause) = &bus.cause {
        println!(rt; "The cause: {cause}.")?;
    }
    Ok(())
}
