//! A theorem about runs that follow one another, as the contract of a function that does nothing.
ghost use Rattle.std.specs.Prelude.{◌≡◌, Ok, Result};
ghost use Rattle.nor_args.specs.Text.{Text};
ghost use Rattle.nor_args.specs.declared.job.ChipJob.{ChipJob};
ghost use Rattle.nor_args.specs.declared.programmer.Programmer.{Programmer};
ghost use Rattle.flashnor.specs.Endings.{all_written};
ghost use Rattle.flashnor.specs.Left.{IsRestorableFrom, Opened};
ghost use Rattle.flashnor.specs.Undone.{LeavesOriginal, RestoresFrom};
ghost use Rattle.nor_console.specs.declared.answers.Answer.{Answer};
ghost use Rattle.flashnor.specs.declared.holding.Unwritten.{Unwritten};
ghost use Rattle.nor_console.specs.declared.messages.Fault.{Fault};

use nor_files::Store;

/// States that the original chip of a change can be restored, even if kills or host crashes interrupt restores.
///
/// `restorable`: if the journal can restore the original chip from everything that a host crash may leave of the chip's
/// files (`IsRestorableFrom`), it still can after each run of `--restore` with this journal. `ends`: such a run, if it
/// returns an answer and writes all files, leaves the original chip.
///
/// Each run must have the same chip and files (`HaveOneChip`) and find the files at rest (`AreAtRest`). Between runs
/// nothing may change these files or the journal (`Follows`), but you may move aside a file that was missing at first.
pub fn runs_restore_original<R: Store>()
    ensures restorable { (programmer : Programmer) (file : Text) (start old mid new : R)
        (first : Opened programmer (R.state start)) (on_chip : ChipJob)
        (unwritten : Unwritten) (returned : Result Answer Fault)
        → RestoresFrom file first on_chip unwritten returned (R.state old) (R.state mid) (R.state new)
        → IsRestorableFrom file first (R.state new) }
    ensures ends { (programmer : Programmer) (file : Text) (start old mid new : R)
        (first : Opened programmer (R.state start)) (on_chip : ChipJob) (answer : Answer)
        → RestoresFrom file first on_chip all_written (Ok answer) (R.state old) (R.state mid) (R.state new)
        → LeavesOriginal first (R.state new) }
{}
