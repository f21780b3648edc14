//! Finds the chip on a bus.

ghost use Rattle.std.specs.Prelude.{◌≡◌, ◌<◌, ◌^◌, ◌↔◌, ℕ, true, false, List, None, IsTrue, IfOk, IfErr, OnOk, OnErr};
ghost use Rattle.nor_model.specs.Size.{is_chip_size};
ghost use Rattle.nor_probe.specs.declared.probes.ProbeFault.TheVariants as Faults;
ghost use Rattle.nor_driver.specs.OnlyReads.{OnlyReads, HasStopped};
ghost use Rattle.nor_probe.specs.Known.{id_of, pointer_in, is_no_chip, sfdp_part, IsModelled};
ghost use Rattle.nor_probe.specs.Found.{found_in, part_in, IsConfigOf, IsCounted, IsWanted, ProbeAlways, ProbeHonest};
ghost use Rattle.nor_model.specs.History.{KeepsReplies, begins_with};
ghost use Rattle.nor_probe.specs.Replied.{IsTypeBySfdp, RepliedSfdp, ProbeEndsAt};
ghost use Rattle.nor_probe.specs.Table.{part_for};
ghost use Rattle.nor_probe.specs.Steps.{Identifies, IdentityErrors, IsIdentified, IsIdentityFault};
ghost use Rattle.nor_probe.specs.Steps.{GeometryErrors, ReadsGeometry, ReadsParameters, reads_under, fault_of};

use crate::{ChipName, Geometry, Part, SfdpFault, part_for, read_sfdp};
use byteorder::{ByteOrder, LittleEndian};
use nor_driver::{OperationError, read_id, read_parameters, wait};
use nor_model::{Bus, Kinds, Stopped};
use thiserror::Error;

/// The reason why a probe returned no chip. `NoChip`, `UnknownChip` and `OtherName` are checked in this order.
#[derive(Clone, Copy, Debug, PartialEq, Eq, Error)]
pub enum ProbeFault {
    /// The ID reads `FF FF FF` or `00 00 00`, as it does if nothing drives the bus.
    #[error("there is no chip")]
    NoChip,
    /// No row applies to the ID (`part_for`), and the chip's SFDP is refused for this reason.
    #[error("the chip isn't known: {0}")]
    UnknownChip(SfdpFault),
    #[error("the chip has another name")]
    OtherName,
    #[error("the bus stopped")]
    Stopped,
    /// 65,536 polls in a row showed BUSY, which doesn't occur on a well-behaved bus.
    #[error("the chip stayed busy")]
    Timeout,
}

/// The chip that was found, with its status 1.
#[derive(Clone, Copy, Debug, PartialEq, Eq)]
pub struct Found {
    /// The name in the row that applies to the ID, or `Sfdp` if the chip was identified by its SFDP.
    pub name: ChipName,
    pub id: [u8; 3],
    /// The size in bytes. A probe returns a power of two from 65,536 to 16,777,216.
    pub size: u32,
    pub kinds: Kinds,
    /// Whether the chip has block protection: false for a chip that was identified by its SFDP.
    pub scheme: bool,
    pub status1: u8,
}

/// The chip that was found, and the number of transactions that the probe sent.
#[derive(Clone, Copy, Debug, PartialEq, Eq)]
pub struct Probed {
    pub found: Found,
    pub transactions: u64,
}

/// Waits until the chip on the bus is idle, and identifies it by its ID (9Fh) or, if no row applies to the ID, by its
/// SFDP (5Ah). `part_for` returns the row that applies; further rows apply only if `has_further_types` returns true. If
/// `named` is given, the chip must have this name.
///
/// On any bus, the ID and status 1 returned are the last replies to 9Fh and 05h, and nothing is sent after a stop or a
/// timeout. On a modelled bus, the size, erase types and block protection are those of the chip.
pub fn probe<B: Bus>(bus: &mut B, named: Option<ChipName>) -> Result<Found, ProbeFault>
    ensures always { ProbeAlways named (B.state bus.old) (B.state bus.new) result }
    ensures honest { (B.state bus.old).honest ≡ true
        → ProbeHonest named (B.state bus.old) (B.state bus.new) result }
    ensures modelled { IsModelled (B.state bus.old)
        → IfOk result (IsConfigOf (B.state bus.old).further (B.state bus.old).chip.config) }
{
    let probed = probe_counted(bus, named)?;
    Ok(probed.found)
}

/// Identifies the chip as `probe` does. On success also returns the number of transactions sent, at most 65,540.
#[tactic(auto, using(crate::proofs::Sizes::size_at_least, crate::proofs::Sizes::size_at_most, crate::proofs::Sizes::size_in_blocks))]
pub fn probe_counted<B: Bus>(bus: &mut B, named: Option<ChipName>) -> Result<Probed, ProbeFault>
    ensures always { ProbeAlways named (B.state bus.old) (B.state bus.new) (found_in result) }
    ensures honest { (B.state bus.old).honest ≡ true
        → ProbeHonest named (B.state bus.old) (B.state bus.new) (found_in result) }
    ensures modelled { IsModelled (B.state bus.old)
        → IfOk (found_in result)
        (IsConfigOf (B.state bus.old).further (B.state bus.old).chip.config) }
    ensures counted { IfOk result (IsCounted (B.state bus.old)) }
{
    let further = bus.has_further_types();
    let waited = wait(bus, 0)?;
    let id = read_id(bus)?;
    let part = identify(bus, further, id)?;
    if !is_wanted(named, part.name) {
        return Err(ProbeFault::OtherName);
    }
    Ok(Probed {
        found: part.found(waited.status1),
        transactions: u64::from(waited.polls) + reads_of(part.name),
    })
}

impl Part {
    fn found(self, status1: u8) -> Found
        ensures part { part_in result ≡ self }
        ensures status1 { result.status1 ≡ status1 }
    {
        let Part {
            name,
            id,
            size,
            kinds,
            scheme,
        } = self;
        Found {
            name,
            id,
            size,
            kinds,
            scheme,
            status1,
        }
    }
}

fn identify<B: Bus>(bus: &mut B, further: bool, id: [u8; 3]) -> Result<Part, ProbeFault>
    ensures leaves { OnlyReads 3 (B.state bus.old) (B.state bus.new) }
    ensures polled_ready { (B.state bus.new).polled_ready ≡ (B.state bus.old).polled_ready }
    ensures part { IfOk result (IsIdentified further id) }
    ensures faults { IfErr result IsIdentityFault }
    ensures replies { OnOk result
        (KeepsReplies (begins_with 0x5A) (B.state bus.old).history (B.state bus.new).history) }
    ensures by_sfdp { part_for further id ≡ None → IfOk result (IsTypeBySfdp (B.state bus.new).history) }
    ensures last { IfErr result (ProbeEndsAt (B.state bus.new).history) }
    ensures shown { further ≡ (B.state bus.old).further → (B.state bus.old).honest ≡ true
        → (B.state bus.old).chip.busy ≡ 0
        → id ≡ id_of (B.state bus.old).chip.config
        → IfOk result (Identifies (B.state bus.old) (B.state bus.new)) }
    ensures errors { further ≡ (B.state bus.old).further → (B.state bus.old).honest ≡ true
        → (B.state bus.old).chip.busy ≡ 0
        → id ≡ id_of (B.state bus.old).chip.config
        → IfErr result (IdentityErrors (B.state bus.old) (B.state bus.new)) }
{
    if is_no_chip(id) {
        return Err(ProbeFault::NoChip);
    }
    if let Some(part) = part_for(further, id) {
        return Ok(part);
    }
    let geometry = read_geometry(bus)?;
    Ok(Part {
        name: ChipName::Sfdp,
        id,
        size: geometry.size,
        kinds: geometry.kinds,
        scheme: false,
    })
}

fn is_no_chip(id: [u8; 3]) -> bool
    ensures { result ≡ is_no_chip id }
{
    id == [0xFF; 3] || id == [0; 3]
}

fn read_geometry<B: Bus>(bus: &mut B) -> Result<Geometry, ProbeFault>
    ensures leaves { OnlyReads 3 (B.state bus.old) (B.state bus.new) }
    ensures polled_ready { (B.state bus.new).polled_ready ≡ (B.state bus.old).polled_ready }
    ensures sized { IfOk result (λ geometry. is_chip_size geometry.size ≡ true) }
    ensures faults { IfErr result IsIdentityFault }
    ensures replies { OnOk result
        (KeepsReplies (begins_with 0x5A) (B.state bus.old).history (B.state bus.new).history) }
    ensures by_sfdp { IfOk result (λ geometry. (with_id : List ℕ)
        → IsTypeBySfdp (B.state bus.new).history (sfdp_part with_id geometry)) }
    ensures last { IfErr result (ProbeEndsAt (B.state bus.new).history) }

    ensures reads { (B.state bus.old).honest ≡ true
        → IfOk result (ReadsGeometry (B.state bus.old) (B.state bus.new)) }
    ensures errors { (B.state bus.old).honest ≡ true → (B.state bus.old).chip.busy ≡ 0
        → IfErr result (GeometryErrors (B.state bus.old) (B.state bus.new)) }
{
    let parameters = read_parts(bus)?;
    let geometry = read_sfdp(&parameters.header, &parameters.first, &parameters.table)?;
    Ok(geometry)
}

#[derive(Clone, Copy)]
struct Parameters {
    header: [u8; 8],
    first: [u8; 8],
    table: [u8; 36],
}

fn read_parts<B: Bus>(bus: &mut B) -> Result<Parameters, Stopped>
    ensures leaves { OnlyReads 3 (B.state bus.old) (B.state bus.new) }
    ensures polled_ready { (B.state bus.new).polled_ready ≡ (B.state bus.old).polled_ready }
    ensures replies { OnOk result
        (KeepsReplies (begins_with 0x5A) (B.state bus.old).history (B.state bus.new).history) }
    ensures replied { IfOk result (λ parts.
        RepliedSfdp (B.state bus.new).history parts.header parts.first parts.table) }
    ensures reads { (B.state bus.old).honest ≡ true
        → IfOk result (ReadsParameters (B.state bus.old) (B.state bus.new)) }
    ensures fails { OnErr result (HasStopped 3 (B.state bus.old) (B.state bus.new)) }
{
    let mut header = [0; 8];
    let mut first = [0; 8];
    let mut table = [0; 36];
    read_parameters(bus, 0, &mut header)?;
    read_parameters(bus, 8, &mut first)?;
    read_parameters(bus, pointer_in(&first), &mut table)?;
    Ok(Parameters {
        header,
        first,
        table,
    })
}

fn pointer_in(first: &[u8; 8]) -> u32
    ensures pointer { result ≡ pointer_in first.now }
    ensures reachable { result < 2 ^ 24 }
{
    LittleEndian::read_u24(&first[4..])
}

fn reads_of(name: ChipName) -> u64
    ensures { result ≡ reads_under name }
{
    match name {
        ChipName::Sfdp => 4,
        _ => 1,
    }
}

fn is_wanted(named: Option<ChipName>, name: ChipName) -> bool
    ensures { IsTrue result ↔ IsWanted named name }
{
    match named {
        Some(wanted) => wanted == name,
        None => true,
    }
}

impl From<Stopped> for ProbeFault {
    ghost from_gives = { λ _ fault. fault ≡ Faults.Stopped };

    fn from(_: Stopped) -> ProbeFault {
        ProbeFault::Stopped
    }
}

impl From<OperationError> for ProbeFault {
    ghost from_gives = { λ reason fault. fault ≡ fault_of reason };

    fn from(halt: OperationError) -> ProbeFault {
        match halt {
            OperationError::Stopped => ProbeFault::Stopped,
            OperationError::Timeout { .. } => ProbeFault::Timeout,
        }
    }
}

impl From<SfdpFault> for ProbeFault {
    ghost from_gives = { λ reason fault. fault ≡ Faults.UnknownChip reason };

    fn from(fault: SfdpFault) -> ProbeFault {
        ProbeFault::UnknownChip(fault)
    }
}
