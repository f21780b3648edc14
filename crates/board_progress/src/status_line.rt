//! The lines for replies that differ, a lost or an exchanged chip, a status write that failed, and a port that changes
//! bytes.

use nor_buses::{ChangedByte, CheckFault, OtherChip};
use nor_model::bits::{BP, BP_TB_SEC, CMP, SRP0};
use std::fmt;

/// The line for a `CheckFault`. This line follows the line of error 12, or is the line of chip fault 3 after a change
/// of SRP0.
#[derive(Clone, Copy, Drop)]
pub struct StatusLine(pub CheckFault);

impl fmt::Display for StatusLine {
    fn fmt<W: fmt::Write>(&self, f: &mut fmt::Formatter<W>) -> fmt::Result {
        match self.0 {
            CheckFault::Differs => f.write_str(DIFFERED),
            CheckFault::Refused => f.write_str(REFUSED),
            CheckFault::NotStored { sent, found } => write!(f, "{}", NotStored { sent, found }),
            CheckFault::Lost { id, found } => write!(
                f,
                "Cause: the chip's ID changed from {}h to {}h during the run. Check contacts and supply.",
                Hex(id),
                Hex(found)
            ),
            CheckFault::ChangedByte(changed) => write!(f, "{}", ChangedLine(changed)),
        }
    }
}

/// The line for a port that seems to change bytes that it receives.
#[derive(Clone, Copy, Drop)]
pub struct ChangedLine(pub ChangedByte);

impl fmt::Display for ChangedLine {
    fn fmt<W: fmt::Write>(&self, f: &mut fmt::Formatter<W>) -> fmt::Result {
        let ChangedByte { lost, read_as } = self.0;
        write!(
            f,
            "Programmer fault 13: {read_as:02X}h was often read, {lost:02X}h never. The port probably changes \
            {lost:02X}h to {read_as:02X}h: then throw away what was read (also a journal), set up the port with stty, \
            and repeat the run."
        )
    }
}

/// The line that follows the line of error 12 if the run stopped because the chip's unique ID has changed.
#[derive(Clone, Copy, Drop)]
pub struct OtherLine(pub OtherChip);

impl fmt::Display for OtherLine {
    fn fmt<W: fmt::Write>(&self, f: &mut fmt::Formatter<W>) -> fmt::Result {
        let OtherChip { before, found } = self.0;
        let (before, found) = (u64::from_be_bytes(before), u64::from_be_bytes(found));
        write!(
            f,
            "Cause: the chip is another one than before: its unique ID was {before:016x}, and is {found:016x} now. \
            Connect the right chip."
        )
    }
}

/// The line that follows the line of error 12 if its only known cause is that two reads of the same bytes differ.
pub const DIFFERED: &str =
    "Cause: two reads of the same bytes differ. Lower the clock (spispeed=), shorten the wires, \
    and try again.";

const REFUSED: &str =
    "Chip fault 2: a status write was not sent, because it would change status bits that this job must \
    keep. Some of these can never be cleared again. Please report this fault of the program.";

#[derive(Clone, Copy, Drop)]
struct Hex([u8; 3]);

impl fmt::Display for Hex {
    fn fmt<W: fmt::Write>(&self, f: &mut fmt::Formatter<W>) -> fmt::Result {
        let [one, two, three] = self.0;
        write!(f, "{one:02X}{two:02X}{three:02X}")
    }
}

#[derive(Clone, Copy, Drop)]
struct NotStored {
    sent: [u8; 2],
    found: [u8; 2],
}

impl fmt::Display for NotStored {
    fn fmt<W: fmt::Write>(&self, f: &mut fmt::Formatter<W>) -> fmt::Result {
        let NotStored { sent, found } = *self;
        // BUSY, WEL and SUS aren't compared, because they change without a status write.
        let [one, two] = [found[0] & 0xFC, found[1] & 0x7F];
        if keeps_srp0(sent, found) {
            f.write_str(IGNORED)?;
        } else {
            let differing = Differing([sent[0] ^ one, sent[1] ^ two]);
            write!(
                f,
                "Chip fault 3: the chip did not store a status write; these bits differ:{differing}. Check WP#, SRP0 \
                and the supply."
            )?;
        }
        write!(
            f,
            " (Sent {:02X}h {:02X}h, read back {one:02X}h {two:02X}h.)",
            sent[0], sent[1]
        )?;
        let kept = (sent[1] ^ two) & KEPT;
        if kept != 0 {
            write!(f, " {KEEPS}{}.", Differing([0, kept]))?;
        }
        if protects(sent) && !protects(found) {
            f.write_str(" The chip is unprotected.")?;
        }
        Ok(())
    }
}

const IGNORED: &str =
    "Chip fault 3: SRP0 is still set, because the chip ignored the status write: WP# is probably low. Connect WP# to \
    the supply, and repeat the run.";

// The bits of status 2 that no job of this program changes: all except CMP, and SUS, which isn't compared.
const KEPT: u8 = 0x3F;

const KEEPS: &str =
    "With another tool, set these bits as they were, because this program never changes them, not even in a \
    restore (see Chip fault 3 in the manual page):";

/// Returns whether a status write was to leave SRP0 clear, and SRP0 was read back as set.
pub fn keeps_srp0(sent: [u8; 2], found: [u8; 2]) -> bool {
    sent[0] & SRP0 == 0 && found[0] & SRP0 != 0
}

/// Returns whether BP0, BP1, BP2 or CMP is set, so an address may be protected (W25Q64FV datasheet, memory protection).
pub fn protects(status: [u8; 2]) -> bool {
    status[0] & BP != 0 || status[1] & CMP != 0
}

/// Returns whether two pairs of status bytes have the same protection bits: BP0 to BP2, TB, SEC and CMP.
pub fn are_equally_protected(one: [u8; 2], other: [u8; 2]) -> bool {
    (one[0] ^ other[0]) & BP_TB_SEC == 0 && (one[1] ^ other[1]) & CMP == 0
}

// The names of the bits that are set in this pair of bytes for status 1 and status 2, each after a space.
#[derive(Clone, Copy, Drop)]
struct Differing([u8; 2]);

// The bits of status 1 (`TWO`: status 2) except BUSY, WEL and SUS (W25Q64FV datasheet, status registers).
const ONE: [(u8, &str); 6] = [
    (0x80, "SRP0"),
    (0x40, "SEC"),
    (0x20, "TB"),
    (0x10, "BP2"),
    (0x08, "BP1"),
    (0x04, "BP0"),
];

const TWO: [(u8, &str); 7] = [
    (0x40, "CMP"),
    (0x20, "LB3"),
    (0x10, "LB2"),
    (0x08, "LB1"),
    (0x04, "bit 2 of status 2"),
    (0x02, "QE"),
    (0x01, "SRP1"),
];

impl fmt::Display for Differing {
    fn fmt<W: fmt::Write>(&self, f: &mut fmt::Formatter<W>) -> fmt::Result {
        let [one, two] = self.0;
        write_names(f, one, &ONE)?;
        write_names(f, two, &TWO)
    }
}

fn write_names<W: fmt::Write>(
    f: &mut fmt::Formatter<W>,
    bits: u8,
    names: &[(u8, &str)],
) -> fmt::Result {
    for (bit, name) in names {
        if bits & *bit != 0 {
            write!(f, " {name}")?;
        }
    }
    Ok(())
}
