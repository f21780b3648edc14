//! Laws (theorems) about what the jobs on a modelled bus do to the original chip.
ghost use Rattle.std.specs.Prelude.{◌≡◌, true, ℕ, List, Ok, Option, Result};
ghost use Rattle.std.specs.Borrow.{Bor};
ghost use Rattle.nor_model.specs.Bus.{BusState};
ghost use Rattle.nor_model.specs.Chip.{Chip};
ghost use Rattle.nor_driver.specs.OnlyReads.{IsSteadyOrIdle};
ghost use Rattle.nor_files.specs.Files.{View, is_lawful};
ghost use Rattle.nor_journal.specs.Text.{Content, IsContent, text};
ghost use Rattle.nor_layout.specs.declared.ranges.Span.{Span};
ghost use Rattle.nor_probe.specs.Known.{IsModelled};
ghost use Rattle.nor_session.specs.Headline.{CanRestore};
ghost use Rattle.nor_args.specs.Text.{Text};
ghost use Rattle.nor_args.specs.declared.job.Change.{Change};
ghost use Rattle.nor_args.specs.declared.job.JournalUse.TheVariants as uses;
ghost use Rattle.nor_args.specs.declared.job.Operation.{Operation};
ghost use Rattle.nor_args.specs.declared.job.Regions.{Regions};
ghost use Rattle.nor_args.specs.declared.job.Task.TheVariants as task;
ghost use Rattle.nor_console.specs.declared.answers.Answer.{Answer};
ghost use Rattle.board_jobs.specs.Jobs.{EndsJob};
ghost use Rattle.board_jobs.specs.Original.{ChangeKeepsOriginal, IsBackedUpIn, RestoreKeepsOriginal};
ghost use Rattle.board_jobs.specs.declared.chip_faults.JobFault.{JobFault};

use nor_files::Store;

/// States what a restore does on a modelled bus, if its journal can restore the original chip `first` at the start.
///
/// At every exit, for example after the bus stopped, the journal can still restore `first`. After success the chip has
/// the bytes and non-volatile status bits of `first`, even if the later comparison of the unsaved sectors then failed.
/// The possible errors of the restore itself (`MayRefuse`) are:
///
/// - Error 12: the bus stopped.
/// - Error 18: memory ran out, and nothing was sent.
/// - Error 3: the chip doesn't have the name that `-c` requires.
/// - Error 9, without `--quick`: a locked status of `first` protects a saved sector.
pub fn restores_keep_original<R: Store>()
    ensures { (operation : Operation) (ranges : Option (List Span)) (bytes : List ℕ) (before : View) (after : R)
        (old new : BusState) (result : Result Answer JobFault) (file : Bor Text) (journal : Content) (first : Chip)
        → operation.task ≡ task.Restore file → EndsJob operation ranges bytes before (R.state after) old new result
        → IsModelled old → IsContent journal → bytes ≡ text journal → CanRestore journal first old
        → RestoreKeepsOriginal operation journal first old new result }
{}

/// States what a change does on a modelled bus that is steady or whose chip is idle, if its journal is in a file that
/// obeys its contract.
///
/// At every exit, either the chip is as it was and no modifying command was sent, or the file durably contains a
/// journal that can restore the chip. After success the chip was changed as asked (`IsChangedAsAsked`), even if the
/// later comparison of the whole chip then failed.
pub fn changes_keep_original<R: Store>()
    ensures { (operation : Operation) (ranges : Option (List Span)) (bytes : List ℕ) (before : View) (after : R)
        (old new : BusState) (result : Result Answer JobFault) (change : Change) (file : Bor Text)
        → operation.task ≡ task.Change change → change.journal_use ≡ uses.Journal file
        → EndsJob operation ranges bytes before (R.state after) old new result
        → IsModelled old → IsSteadyOrIdle old → is_lawful (R.state after).view ≡ true
        → ChangeKeepsOriginal operation change ranges bytes file.now (R.state after) old new result }
{}

/// States that after a backup that succeeded on a modelled bus, the file durably contains a backup of the chip, which
/// can restore it. The file must obey its contract.
pub fn backups_restore_original<R: Store>()
    ensures { (operation : Operation) (ranges : Option (List Span)) (bytes : List ℕ) (before : View) (after : R)
        (old new : BusState) (answer : Answer) (file : Bor Text) (regions : Option Regions)
        → operation.task ≡ task.Read file regions → operation.is_backup ≡ true
        → EndsJob operation ranges bytes before (R.state after) old new (Ok answer)
        → IsModelled old → is_lawful (R.state after).view ≡ true
        → IsBackedUpIn file.now old.chip new (R.state after) }
{}
