//! Calls to the engine that read, compare, change or back up a chip, and the files that they write. `named`, if
//! given, is the name that the chip must have.
ghost use Rattle.std.specs.Prelude.{◌≡◌, IfErr, IfOk, OnErr, false, option_copied, replicate, true};
ghost use Rattle.nor_files.specs.Calls.{BorrowsNone};
ghost use Rattle.nor_files.specs.Files.{OthersStay, is_lawful};
ghost use Rattle.nor_journal.specs.Vault.{IsFresh};
ghost use Rattle.nor_console.specs.Files.{IsMaking};
ghost use Rattle.nor_console.specs.Readings.{HasReadInto, HasReadOut, HasReported, HasVerified, ListsRanges, ReportsProtection};
ghost use Rattle.nor_console.specs.Sessions.{HasAnnounced, HasBackedUp, HasBackedUpInFile, HasRunInFile, HasRunSession};
ghost use Rattle.nor_console.specs.Sessions.{SealsDurably};

use crate::answers::{Answer, Outcome};
use crate::files::{create_journal, create_output};
use crate::messages::Fault;
use nor_files::Store;
use nor_journal::Vault;
use nor_layout::Ranges;
use nor_model::{Bus, offered};
use nor_probe::ChipName;
use nor_read::{read_out, verify, wp_status};
use nor_session::{Announcement, Request, backup, session_announced};
use std::alloc::{AllocError, Global};

/// Returns the chip's protected range and whether its status is locked, or an error of `wp_status`.
pub fn report_protection<B: Bus>(bus: &mut B, named: Option<ChipName>) -> Outcome
    ensures { HasReported ReportsProtection named (B.state bus.old) (B.state bus.new) result }
{
    let protection = wp_status(bus, named)?;
    Ok(Answer::Protection(protection))
}

/// Returns the ranges that can be protected, or an error of `wp_status`.
pub fn list_ranges<B: Bus>(bus: &mut B, named: Option<ChipName>) -> Outcome
    ensures { HasReported ListsRanges named (B.state bus.old) (B.state bus.new) result }
{
    let protection = wp_status(bus, named)?;
    Ok(Answer::Ranges(offered(protection.size)))
}

/// Reads the chip into `file`, which `create_output` creates or truncates before the first transaction. Addresses that
/// aren't included get FFh. If `included` is `None`, every address is included. The outer error is a fault of
/// `create_output`. The inner error is an error of `read_out`, and the file may then hold a prefix of the copy.
pub fn read_to_file<'a, R: Store, B: Bus>(
    rt: &mut R,
    bus: &mut B,
    named: Option<ChipName>,
    file: &'a str,
    included: Option<&Ranges>,
) -> Result<Outcome, Fault<'a>>
    ensures nature { (R.state rt.new).view.nature ≡ (R.state rt.old).view.nature }
    ensures others { is_lawful (R.state rt.old).view ≡ true
        → OthersStay file.now (R.state rt.old) (R.state rt.new) }
    ensures ok { IfOk result (HasReadOut named file.now (option_copied included.entry)
        (B.state bus.old) (B.state bus.new) (R.state rt.new).view) }
    ensures unsent { OnErr result (B.state bus.new ≡ B.state bus.old) }
    ensures err { IfErr result (IsMaking (R.state rt.old).view file.now) }
{
    let mut out = create_output(rt, file)?;
    let outcome = read_into(bus, named, included, &mut out);
    rt.return_vault(out);
    Ok(outcome)
}

fn read_into<B: Bus, V: Vault>(
    bus: &mut B,
    named: Option<ChipName>,
    included: Option<&Ranges>,
    out: &mut V,
) -> Outcome
    requires { (V.state out.old).sealed ≡ false }
    ensures { HasReadInto named (option_copied included.entry) (B.state bus.old) (B.state bus.new)
        (V.state out.old) (V.state out.new) result }
{
    let report = read_out(bus, included, named, out)?;
    Ok(Answer::Read(report))
}

/// Compares the chip with an image at the included addresses, or at every address if `included` is `None`. Returns an
/// error of `verify`, such as 14 if a byte differs.
pub fn verify_image<B: Bus>(
    bus: &mut B,
    named: Option<ChipName>,
    image: &[u8],
    included: Option<&Ranges>,
) -> Outcome
    ensures { HasVerified named (option_copied included.entry) image.now (B.state bus.old) (B.state bus.new) result }
{
    let report = verify(bus, image, included, named)?;
    Ok(Answer::Verified(report))
}

pub fn erased(alloc: Global, size: u32) -> Result<Vec<u8>, AllocError>
    ensures { IfOk result (λ bytes. bytes.items ≡ replicate size 255) }
{
    vec![in alloc; 0xFF; size as usize]
}

/// Runs the session that `request` asks for, with its journal in `file`, which `create_journal` creates before the
/// first transaction. `announce` must accept every announcement. The outer error is a fault of `create_journal`, and
/// the inner error is an error of `session_announced`.
///
/// On lawful files, from the seal on, a host crash leaves exactly the journal in the file (`synced`). The seal comes
/// before the first modifying command: any vault may refuse the seal, and then no such command was sent (`keeps`).
pub fn session_in_file<'a, R: Store, B: Bus, F: FnOnce(Announcement) + Drop>(
    rt: &mut R,
    bus: &mut B,
    file: &'a str,
    image: &mut [u8],
    request: &Request,
    announce: F,
) -> Result<Outcome, Fault<'a>>
    requires { F.IsAlwaysCallable announce }
    ensures nature { (R.state rt.new).view.nature ≡ (R.state rt.old).view.nature }
    ensures others { is_lawful (R.state rt.old).view ≡ true
        → OthersStay file.now (R.state rt.old) (R.state rt.new) }
    ensures ok { IfOk result (HasRunInFile request.now image.old file.now (R.state rt.old).view (R.state rt.new)
        (B.state bus.old) (B.state bus.new)) }
    ensures synced { is_lawful (R.state rt.old).view ≡ true
        → IfOk result (λ outcome. SealsDurably R.Filed.state R.Filed.synced
        (λ vault vault'. HasRunSession request.now image.old (B.state bus.old) (B.state bus.new) vault vault' outcome)
        file.now (R.state rt.new)) }
    ensures unmade { is_lawful (R.state rt.old).view ≡ true
        → OnErr result (BorrowsNone file.now (R.state rt.old) (R.state rt.new)) }
    ensures unsent { OnErr result (B.state bus.new ≡ B.state bus.old) }
    ensures err { IfErr result (IsMaking (R.state rt.old).view file.now) }
    ensures announces { IfOk result (HasAnnounced (λ announcement. F.post announce announcement tt)
        (B.state bus.old) (B.state bus.new)) }
{
    let mut journal = create_journal(rt, file)?;
    let outcome = run_session(bus, &mut journal, image, request, announce);
    rt.return_vault(journal);
    Ok(outcome)
}

fn run_session<B: Bus, V: Vault, F: FnOnce(Announcement) + Drop>(
    bus: &mut B,
    vault: &mut V,
    image: &mut [u8],
    request: &Request,
    announce: F,
) -> Outcome
    requires fresh { IsFresh (V.state vault.old) }
    requires callable { F.IsAlwaysCallable announce }
    ensures runs { HasRunSession request.now image.old (B.state bus.old) (B.state bus.new)
        (V.state vault.old) (V.state vault.new) result }
    ensures announces { HasAnnounced (λ announcement. F.post announce announcement tt)
        (B.state bus.old) (B.state bus.new) result }
{
    let report = session_announced(bus, vault, image, request, announce)?;
    Ok(Answer::Done(report))
}

/// Saves the whole chip in a journal in `file`, which `create_journal` creates before the first transaction. The outer
/// error is a fault of `create_journal`. The inner error is an error of `backup`, and the file may then hold a prefix
/// of the journal.
pub fn backup_in_file<'a, R: Store, B: Bus>(
    rt: &mut R,
    bus: &mut B,
    named: Option<ChipName>,
    file: &'a str,
) -> Result<Outcome, Fault<'a>>
    ensures nature { (R.state rt.new).view.nature ≡ (R.state rt.old).view.nature }
    ensures others { is_lawful (R.state rt.old).view ≡ true
        → OthersStay file.now (R.state rt.old) (R.state rt.new) }
    ensures ok { IfOk result (HasBackedUpInFile named file.now (R.state rt.old).view (R.state rt.new)
        (B.state bus.old) (B.state bus.new)) }
    ensures synced { is_lawful (R.state rt.old).view ≡ true
        → IfOk result (λ outcome. SealsDurably R.Filed.state R.Filed.synced
        (λ vault vault'. HasBackedUp named (B.state bus.old) (B.state bus.new) vault vault' outcome)
        file.now (R.state rt.new)) }
    ensures unmade { is_lawful (R.state rt.old).view ≡ true
        → OnErr result (BorrowsNone file.now (R.state rt.old) (R.state rt.new)) }
    ensures unsent { OnErr result (B.state bus.new ≡ B.state bus.old) }
    ensures err { IfErr result (IsMaking (R.state rt.old).view file.now) }
{
    let mut journal = create_journal(rt, file)?;
    let outcome = run_backup(bus, &mut journal, named);
    rt.return_vault(journal);
    Ok(outcome)
}

fn run_backup<B: Bus, V: Vault>(bus: &mut B, vault: &mut V, named: Option<ChipName>) -> Outcome
    requires { IsFresh (V.state vault.old) }
    ensures { HasBackedUp named (B.state bus.old) (B.state bus.new) (V.state vault.old) (V.state vault.new) result }
{
    let report = backup(bus, vault, named)?;
    Ok(Answer::Read(report))
}
