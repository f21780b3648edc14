//! Restores from a journal.
ghost use Rattle.std.specs.Prelude.{◌≡◌, IfErr, IfOk, false, true};
ghost use Rattle.nor_journal.specs.Text.{IsContent, text};
ghost use Rattle.nor_jobs.specs.Restoring.{HasRestoredNamed, HasRunRestore, IsNoJournal};

use crate::finding::check_name;
use nor_console::{Answer, Fault, Outcome};
use nor_journal::{FIRST_MAGIC, Journal, JournalFault, MAGIC};
use nor_model::Bus;
use nor_probe::ChipName;
use nor_session::{Announcement, Refusal, restore_announced, rewrite_announced};

/// Returns the journal that `bytes` encode, or error 15 with the first fault of `bytes`. The error is `NoJournal` if
/// there are fewer than 8 bytes and no journal begins with them.
pub fn journal_in<'a, 'b>(bytes: &'b [u8]) -> Result<Journal<'b>, Fault<'a>>
    ensures ok { IfOk result (λ journal. IsContent journal × (bytes.now ≡ text journal)) }
    ensures err { IfErr result (IsNoJournal bytes.now) }
{
    match Journal::read(bytes) {
        Ok(journal) => Ok(journal),
        Err(JournalFault::Short) if !begins_as_journal(bytes) => Err(Fault::NoJournal),
        Err(fault) => Err(Fault::Refused(Refusal::BadJournal(fault))),
    }
}

fn begins_as_journal(bytes: &[u8]) -> bool {
    let start = match bytes.get(..MAGIC.len()) {
        Some(start) => start,
        None => bytes,
    };
    MAGIC.starts_with(start) || FIRST_MAGIC.starts_with(start)
}

/// Restores the chip from a journal: with `quick`, rewrites only the saved sectors that differ (`restore`), otherwise
/// erases and rewrites every saved sector (`rewrite`). If `named` is given, checks the name first. Returns an error of
/// this check (1, 2, 3, 12 or 13) or of the restore. `announce` must accept every announcement.
pub fn restore_named<B: Bus, F: FnOnce(Announcement) + Drop>(
    bus: &mut B,
    named: Option<ChipName>,
    journal: &Journal<'_>,
    quick: bool,
    announce: F,
) -> Outcome
    requires { F.IsAlwaysCallable announce }
    ensures { HasRestoredNamed quick named journal.now (B.state bus.old) (B.state bus.new) result }
{
    check_name(bus, named)?;
    run_restore(bus, journal, quick, announce)
}

fn run_restore<B: Bus, F: FnOnce(Announcement) + Drop>(
    bus: &mut B,
    journal: &Journal<'_>,
    quick: bool,
    announce: F,
) -> Outcome
    requires { F.IsAlwaysCallable announce }
    ensures { HasRunRestore quick journal.now (B.state bus.old) (B.state bus.new) result }
{
    if quick {
        restore_differing(bus, journal, announce)
    } else {
        restore_all(bus, journal, announce)
    }
}

fn restore_differing<B: Bus, F: FnOnce(Announcement) + Drop>(
    bus: &mut B,
    journal: &Journal<'_>,
    announce: F,
) -> Outcome
    requires { F.IsAlwaysCallable announce }
    ensures { HasRunRestore true journal.now (B.state bus.old) (B.state bus.new) result }
{
    let report = restore_announced(bus, journal, announce)?;
    Ok(Answer::Done(report))
}

fn restore_all<B: Bus, F: FnOnce(Announcement) + Drop>(
    bus: &mut B,
    journal: &Journal<'_>,
    announce: F,
) -> Outcome
    requires { F.IsAlwaysCallable announce }
    ensures { HasRunRestore false journal.now (B.state bus.old) (B.state bus.new) result }
{
    let report = rewrite_announced(bus, journal, announce)?;
    Ok(Answer::Done(report))
}
