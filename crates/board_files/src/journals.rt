//! Describes the journal in a file, for `--check-journal` and `--extract-image`. No programmer is used.
ghost use Rattle.std.specs.Prelude.{◌≡◌, ◌≤◌, ◌*◌, IfErr, IfOk};
ghost use Rattle.std.specs.List.{count_by};
ghost use Rattle.nor_files.specs.Files.{AreUntouched};
ghost use Rattle.board_files.specs.Journals.{AreEnds, Describes, FailsToDescribe, IsDescribedIn, IsSealedIn};
ghost use Rattle.board_files.specs.Journals.{are_blank, is_blank};

use crate::exit_status::status_of;
use crate::file_hints::print_hint;
use crate::quoted::Quoted;
use nor_console::{Escaped, Fault, print_fault, read_journal};
use nor_files::Store;
use nor_geometry::SECTOR_LEN;
use nor_jobs::journal_in;
use nor_journal::{Journal, JournalFault};
use nor_probe::{ChipName, part_for};
use std::io::Write;
use std::{fmt, io};

/// A summary of a sealed and undamaged journal.
#[derive(Drop)]
pub struct Description {
    pub id: [u8; 3],
    /// The chip's size in bytes.
    pub size: u32,
    /// The chip's unique ID, or `None` for a journal of format 1.
    pub unique: Option<[u8; 8]>,
    /// Status 1 and status 2.
    pub status: [u8; 2],
    pub saved: usize,
    /// The first and the last saved address, or `None` if no sector is saved.
    pub ends: Option<(u64, u64)>,
    /// The number of saved sectors that hold only FFh.
    pub blank: usize,
}

/// Prints the description of the journal `name` to `output`, or the fault of this file to `errors`. Returns exit status
/// 0 if the journal is sealed and undamaged and everything was printed, otherwise 1.
pub fn check_journal<R: Store, O: Write, E: Write>(
    files: &mut R,
    name: &str,
    output: &mut O,
    errors: &mut E,
) -> u8
    ensures few { result ≤ 1 }
    ensures same { AreUntouched (R.state files.old) (R.state files.new) }
    ensures sealed { result ≡ 0 → IsSealedIn (R.state files.old).view name.entry.now }
{
    match describe(files, name) {
        Ok(description) => {
            let printed = print_description(output, name, &description);
            status_of(printed, errors)
        }
        Err(fault) => {
            print_fault(errors, &fault);
            print_hint(errors, &fault);
            1
        }
    }
}

fn describe<'a, R: Store>(files: &mut R, name: &'a str) -> Result<Description, Fault<'a>>
    ensures same { AreUntouched (R.state files.old) (R.state files.new) }
    ensures ok { IfOk result (IsDescribedIn (R.state files.old).view name.now) }
    ensures err { IfErr result (FailsToDescribe (R.state files.old).view name.now) }
{
    let bytes = read_journal(files, name)?;
    match journal_in(&bytes) {
        Ok(journal) => Ok(description_of(&journal)),
        Err(fault) => Err(fault),
    }
}

pub fn description_of(journal: &Journal<'_>) -> Description
    ensures { Describes journal.now result }
{
    Description {
        id: journal.id(),
        size: journal.size(),
        unique: journal.unique(),
        status: journal.status(),
        saved: journal.count(),
        ends: ends_of(journal),
        blank: count_blank(journal),
    }
}

fn ends_of(journal: &Journal<'_>) -> Option<(u64, u64)>
    ensures { AreEnds journal.now.saved result }
{
    let count = journal.count();
    if count == 0 {
        return None;
    }
    let (first, _) = journal.sector(0);
    let (last, _) = journal.sector(count - 1);
    Some((first_byte(first), first_byte(last) + 4095))
}

fn first_byte(sector: u32) -> u64
    ensures { result ≡ 4096 * sector }
{
    u64::from(SECTOR_LEN) * u64::from(sector)
}

fn count_blank(journal: &Journal<'_>) -> usize
    ensures { result ≡ count_by is_blank journal.now.saved }
{
    let mut blank = 0;
    for i in 0..journal.count() {
        let (_, bytes) = journal.sector(i);
        if is_blank(bytes) {
            blank += 1;
        }
    }
    blank
}

fn is_blank(bytes: &[u8]) -> bool
    ensures { result ≡ are_blank bytes.now }
{
    bytes.iter().all(|byte| *byte == 0xFF)
}

/// Returns the advice for a fault of a journal, as one line.
pub fn advice(fault: JournalFault) -> &'static str {
    match fault {
        JournalFault::Short => {
            "If the terminal showed the progress of that session, but not SEALED, the chip was not changed. \
             Otherwise look for another copy of the journal, and don't write or erase anything."
        }
        JournalFault::Magic => "Is this the right file? If it is, look for another copy.",
        _ => "Bytes of it have changed since it was sealed. Look for another copy.",
    }
}

pub fn print_description<W: Write>(
    output: &mut W,
    name: &str,
    description: &Description,
) -> io::Result<()> {
    write!(output, "{}", Lines { name, description })?;
    output.flush()
}

#[derive(Drop)]
struct Lines<'a> {
    name: &'a str,
    description: &'a Description,
}

impl fmt::Display for Lines<'_> {
    fn fmt<W: fmt::Write>(&self, f: &mut fmt::Formatter<W>) -> fmt::Result {
        let Description {
            id,
            size,
            unique,
            status,
            saved,
            ends,
            blank,
        } = self.description;
        let chip = name_of(*id, *size);
        let (maker, kind, capacity) = (id[0], id[1], id[2]);
        let sectors = size / SECTOR_LEN;
        writeln!(
            f,
            "Journal of {chip} ({maker:02x}{kind:02x}{capacity:02x}), {size} bytes."
        )?;
        writeln!(f, "{}", UniqueId(*unique))?;
        match ends {
            Some((first, last)) => writeln!(
                f,
                "Saves {saved} of {sectors} sectors, from 0x{first:06x} to 0x{last:06x}."
            )?,
            None => writeln!(f, "Saves 0 of {sectors} sectors.")?,
        }
        writeln!(f, "Status: {}.", StatusBits(*status))?;
        f.write_str("Sealed and undamaged.\n")?;
        if blank > &(saved / 2) {
            writeln!(
                f,
                "Warning: {blank} of these sectors hold only ff. So does an erased chip, but also one that was\n\
                 lost while it was saved: compare with another journal or image of the board."
            )?;
        }
        match Quoted::new(self.name) {
            Some(name) => writeln!(
                f,
                "To restore: flashnor-serprog -p serprog:dev=PATH --restore {name}"
            ),
            None => writeln!(
                f,
                "To restore, rename the file, whose name can't be copied: {}",
                Escaped(self.name)
            ),
        }
    }
}

fn name_of(id: [u8; 3], size: u32) -> &'static str {
    match part_for(true, id) {
        Some(part) if part.size == size => part.name.as_str(),
        _ => ChipName::Sfdp.as_str(),
    }
}

#[derive(Drop)]
struct UniqueId(Option<[u8; 8]>);

impl fmt::Display for UniqueId {
    fn fmt<W: fmt::Write>(&self, f: &mut fmt::Formatter<W>) -> fmt::Result {
        match self.0.map(|unique| u64::from_be_bytes(unique)) {
            None => f.write_str(
                "Unique ID: not recorded (format 1). This journal fits any chip with this ID and size.",
            ),
            Some(0) => f.write_str(
                "Unique ID: none (16 zeros). This journal fits any chip with this ID and size that has no unique ID.",
            ),
            Some(id) => write!(f, "Unique ID: {id:016x}."),
        }
    }
}

/// Status 1 and status 2 as hexadecimal digits, with the names of the bits that are set.
#[derive(Clone, Copy, Drop)]
pub struct StatusBits(pub [u8; 2]);

// The names of the bits from bit 0 on (datasheets of W25Q64FV and W25Q128FV, section 7.1).
const STATUS1: [&str; 8] = ["BUSY", "WEL", "BP0", "BP1", "BP2", "TB", "SEC", "SRP0"];

const STATUS2: [&str; 8] = ["SRP1", "QE", "reserved", "LB1", "LB2", "LB3", "CMP", "SUS"];

impl fmt::Display for StatusBits {
    fn fmt<W: fmt::Write>(&self, f: &mut fmt::Formatter<W>) -> fmt::Result {
        let [first, second] = self.0;
        write!(f, "{first:02x} {second:02x}")?;
        write_bits(f, first, &STATUS1)?;
        write_bits(f, second, &STATUS2)
    }
}

fn write_bits<W: fmt::Write>(
    f: &mut fmt::Formatter<W>,
    byte: u8,
    names: &[&'static str; 8],
) -> fmt::Result {
    let mut rest = byte;
    for name in names {
        if rest % 2 == 1 {
            write!(f, " {name}")?;
        }
        rest /= 2;
    }
    Ok(())
}
