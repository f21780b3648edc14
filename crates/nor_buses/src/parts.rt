//! Reads and programs that are carried out in parts.
ghost use Rattle.std.specs.Prelude.{◌≡◌, ◌<◌, ◌≤◌, ◌+◌, ◌*◌, ◌%◌, ◌⊎◌, ◌∷◌, ◌++◌, [], true, false, ℕ, All, length, drop, OnOk, OnErr, IfSome, IfOk};
ghost use Rattle.nor_model.specs.Bus.{SameNature};
ghost use Rattle.nor_model.specs.History.{exchange_of, replied, stopped};
ghost use Rattle.nor_model.specs.Passed.{Passes, PassesParts};
ghost use Rattle.nor_model.specs.Sent.{begins_program};
ghost use Rattle.nor_buses.specs.ReadsAs.{address_in};
ghost use Rattle.nor_buses.specs.Parts.{further, address_bytes, can_split_read, SplitsRead, SplitsProgram};
ghost use Rattle.nor_buses.specs.Parts.{WaitsReady, PollsOnce, EndsReady};

use arrayvec::ArrayVec;
use nor_model::opcodes::{
    PAGE_PROGRAM, READ_DATA, READ_SFDP, READ_STATUS1, READ_STATUS2, WRITE_ENABLE,
};
use nor_model::{Bus, Stopped};

const PAGE_LEN: usize = 256;

// The number of bytes that a program sends before its data: an opcode and three address bytes.
const HEADER_LEN: usize = 4;

const LONGEST_PROGRAM: usize = HEADER_LEN + PAGE_LEN;

const ADDRESSES_END: usize = 1 << 24;

const MOST_POLLS: u32 = 65536;

// Carries out the read `out` in parts of at most `longest` bytes each, and fills `reply`. Returns `Stopped` if the bus
// stopped or, before anything is sent, if `out` can't be split or the read passes address FFFFFFh.
pub(crate) fn split_read<B: Bus>(
    bus: &mut B,
    longest: u32,
    out: &[u8],
    reply: &mut [u8],
) -> Result<(), Stopped>
    requires { 1 ≤ longest }
    ensures nature { SameNature (B.state bus.old) (B.state bus.new) }
    ensures passed { (B.state bus.new).passed ≡ (B.state bus.old).passed }
    ensures parts { SplitsRead longest out.now reply.new result (B.state bus.old).history (B.state bus.new).history }
    ensures rejects { can_split_read out.now ≡ false → bus.new ≡ bus.old }
    ensures fails { can_split_read out.now ≡ false → OnOk result ⊥ }
{
    match first_address(out) {
        Some(address) if address as usize + reply.len() <= ADDRESSES_END => {
            read_parts(bus, longest as usize, out, reply)
        }
        _ => Err(Stopped),
    }
}

fn first_address(out: &[u8]) -> Option<u32>
    ensures address { IfSome result (λ address. address ≡ address_in out.now) }
    ensures fits { IfSome result (λ address. address ≤ 16777215) }
    ensures splits { IfSome result (λ address. can_split_read out.now ≡ true) }
{
    match out {
        [READ_STATUS1 | READ_STATUS2] => Some(0),
        [READ_DATA, high, middle, low] => Some(u32::from_be_bytes([0, *high, *middle, *low])),
        [READ_SFDP, high, middle, low, _] => Some(u32::from_be_bytes([0, *high, *middle, *low])),
        _ => None,
    }
}

fn read_parts<B: Bus>(
    bus: &mut B,
    longest: usize,
    out: &[u8],
    reply: &mut [u8],
) -> Result<(), Stopped>
    requires longest { 1 ≤ longest }
    requires fits { address_in out.now + length reply.old ≤ 16777216 }
    ensures nature { SameNature (B.state bus.old) (B.state bus.new) }
    ensures passed { (B.state bus.new).passed ≡ (B.state bus.old).passed }
    ensures parts { SplitsRead longest out.now reply.new result (B.state bus.old).history (B.state bus.new).history }
{
    let mut done = 0;
    while done < reply.len() {
        let len = longest.min(reply.len() - done);
        read_part(bus, out, done as u32, &mut reply[done..done + len])?;
        done += len;
    }
    Ok(())
}

fn read_part<B: Bus>(bus: &mut B, out: &[u8], from: u32, part: &mut [u8]) -> Result<(), Stopped>
    requires { address_in out.now + from ≤ 16777215 }
    ensures nature { SameNature (B.state bus.old) (B.state bus.new) }
    ensures passed { (B.state bus.new).passed ≡ (B.state bus.old).passed }
    ensures read { OnOk result
        ((B.state bus.new).history ≡ replied (further out.now from) part.new ∷ (B.state bus.old).history) }
    ensures stopped { OnErr result (((B.state bus.new).history ≡ (B.state bus.old).history)
        ⊎ ((B.state bus.new).history ≡ stopped (further out.now from) ∷ (B.state bus.old).history)) }
{
    match out {
        [READ_STATUS1 | READ_STATUS2] => bus.transfer(out, part),
        [READ_DATA, high, middle, low] => {
            let [high, middle, low] = address_from(*high, *middle, *low, from);
            bus.transfer(&[READ_DATA, high, middle, low], part)
        }
        [READ_SFDP, high, middle, low, dummy] => {
            let [high, middle, low] = address_from(*high, *middle, *low, from);
            bus.transfer(&[READ_SFDP, high, middle, low, *dummy], part)
        }
        _ => Err(Stopped),
    }
}

fn address_from(high: u8, middle: u8, low: u8, from: u32) -> [u8; 3]
    requires { 65536 * high + 256 * middle + low + from ≤ 16777215 }
    ensures { result ≡ address_bytes (65536 * high + 256 * middle + low + from) }
{
    let [_, high, middle, low] = (u32::from_be_bytes([0, high, middle, low]) + from).to_be_bytes();
    [high, middle, low]
}

// Carries out the program `out` in parts that send at most `longest` bytes each. Returns `Stopped` if the bus stopped,
// the chip stayed busy or, before anything is sent, if `out` is no program within one page or `reply` isn't empty. A
// poll reads two bytes, or one if `polled` is 1.
pub(crate) fn split_program<B: Bus>(
    bus: &mut B,
    longest: u32,
    polled: u32,
    out: &[u8],
    reply: &[u8],
) -> Result<(), Stopped>
    requires longest { 5 ≤ longest }
    requires long { longest < length out.now }
    requires polled { 1 ≤ polled }
    ensures nature { SameNature (B.state bus.old) (B.state bus.new) }
    ensures passed { Passes out.now (B.state bus.old).passed (B.state bus.new).passed }
    ensures parts { SplitsProgram longest (address_in out.now) (drop 4 out.now) result
        (B.state bus.old).history (B.state bus.new).history }
    ensures rejects { begins_program out.now ≡ false → bus.new ≡ bus.old }
    ensures fails { begins_program out.now ≡ false → OnOk result ⊥ }
{
    match out {
        [PAGE_PROGRAM, high, middle, low, bytes @ ..]
            if fits_page(*low, bytes) && reply.is_empty() => {
            let address = u32::from_be_bytes([0, *high, *middle, *low]);
            program_parts(
                bus,
                longest as usize,
                polled.min(2) as usize,
                address,
                bytes,
            )
        }
        _ => Err(Stopped),
    }
}

fn fits_page(low: u8, bytes: &[u8]) -> bool
    ensures { result ≡ true → low + length bytes.now ≤ 256 }
{
    bytes.len() <= PAGE_LEN - usize::from(low)
}

fn program_parts<B: Bus>(
    bus: &mut B,
    longest: usize,
    polled: usize,
    address: u32,
    bytes: &[u8],
) -> Result<(), Stopped>
    requires longest { 5 ≤ longest }
    requires polled { 1 ≤ polled }
    requires few_polled { polled ≤ 2 }
    requires some { 0 < length bytes.now }
    requires address { address ≤ 16777215 }
    requires page { address % 256 + length bytes.now ≤ 256 }
    ensures nature { SameNature (B.state bus.old) (B.state bus.new) }
    ensures passed { PassesParts (0x02 ∷ address_bytes address ++ bytes.now)
        (B.state bus.old).passed (B.state bus.new).passed }
    ensures parts { SplitsProgram longest address bytes.now result
        (B.state bus.old).history (B.state bus.new).history }
{
    let most = longest - HEADER_LEN;
    let mut done = most.min(bytes.len());
    program_part(bus, address, &bytes[..done])?;
    while done < bytes.len() {
        wait(bus, polled)?;
        bus.transfer(&[WRITE_ENABLE], &mut [])?;
        let len = most.min(bytes.len() - done);
        program_part(bus, address + done as u32, &bytes[done..done + len])?;
        done += len;
    }
    Ok(())
}

fn program_part<B: Bus>(bus: &mut B, address: u32, part: &[u8]) -> Result<(), Stopped>
    requires address { address ≤ 16777215 }
    requires len { length part.now ≤ 256 }
    ensures nature { SameNature (B.state bus.old) (B.state bus.new) }
    ensures passed { Passes (0x02 ∷ address_bytes address ++ part.now)
        (B.state bus.old).passed (B.state bus.new).passed }
    ensures history { (B.state bus.new).history
        ≡ exchange_of (0x02 ∷ address_bytes address ++ part.now) [] result ∷ (B.state bus.old).history }
{
    let [_, high, middle, low] = address.to_be_bytes();
    let mut out: ArrayVec<u8, LONGEST_PROGRAM> = ArrayVec::new();
    out.push(PAGE_PROGRAM);
    out.push(high);
    out.push(middle);
    out.push(low);
    let _ = out.try_extend_from_slice(part);
    bus.transfer(&out, &mut [])
}

// Polls until the chip is ready. Returns `Stopped` if 65,536 polls show BUSY, or if the bus stopped.
fn wait<B: Bus>(bus: &mut B, polled: usize) -> Result<(), Stopped>
    requires polled { 1 ≤ polled }
    requires few { polled ≤ 2 }
    ensures nature { SameNature (B.state bus.old) (B.state bus.new) }
    ensures passed { (B.state bus.new).passed ≡ (B.state bus.old).passed }
    ensures waits { WaitsReady result (B.state bus.old).history (B.state bus.new).history }
{
    for _ in 0..MOST_POLLS {
        if poll(bus, polled)? {
            return Ok(());
        }
    }
    Err(Stopped)
}

fn poll<B: Bus>(bus: &mut B, polled: usize) -> Result<bool, Stopped>
    requires polled { 1 ≤ polled }
    requires few { polled ≤ 2 }
    ensures nature { SameNature (B.state bus.old) (B.state bus.new) }
    ensures passed { (B.state bus.new).passed ≡ (B.state bus.old).passed }
    ensures polls { PollsOnce (B.state bus.old).history (B.state bus.new).history }
    ensures ready { IfOk result (λ ready. ready ≡ true → EndsReady (B.state bus.new).history) }
{
    let mut status = [0; 2];
    let shown = &mut status[..polled];
    bus.transfer(&[READ_STATUS1], &mut *shown)?;
    Ok(show_ready(shown))
}

fn show_ready(status: &[u8]) -> bool
    ensures { result ≡ true → All (λ (byte : ℕ). byte % 2 ≡ 0) status.now }
{
    status.iter().all(|byte| byte % 2 == 0)
}
