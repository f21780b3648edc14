//! Laws (theorems) about what runs on a modelled bus do to the original chip.
ghost use Rattle.std.specs.Prelude.{◌≡◌, ◌⊎◌, List, None, Option, true, ℕ};
ghost use Rattle.std.specs.Borrow.{Bor};
ghost use Rattle.nor_model.specs.Bus.{BusState};
ghost use Rattle.nor_model.specs.Chip.{Chip, IsSame};
ghost use Rattle.nor_files.specs.Files.{is_lawful};
ghost use Rattle.nor_journal.specs.Text.{Content, IsContent, text};
ghost use Rattle.nor_probe.specs.Known.{IsModelled};
ghost use Rattle.nor_serprog.specs.Device.{PortState};
ghost use Rattle.nor_session.specs.Headline.{CanRestore};
ghost use Rattle.nor_args.specs.Text.{Text};
ghost use Rattle.nor_args.specs.declared.job.Change.{Change};
ghost use Rattle.nor_args.specs.declared.job.JournalUse.TheVariants as uses;
ghost use Rattle.nor_args.specs.declared.job.Operation.{Operation};
ghost use Rattle.nor_args.specs.declared.job.Regions.{Regions};
ghost use Rattle.nor_args.specs.declared.job.Task.TheVariants as task;
ghost use Rattle.nor_buses.specs.Ahead.{ahead_of};
ghost use Rattle.board_progress.specs.ProgressBus.{shown_bus};
ghost use Rattle.board_jobs.specs.Looked.{IsSteadyOrIdle};
ghost use Rattle.board_jobs.specs.Original.{IsUntouched};
ghost use Rattle.serprog_runs.specs.Connected.{IsAhead, seen_over};
ghost use Rattle.serprog_board.specs.Reached.{FitsPort, IsModelledBoard, ReachesChip};
ghost use Rattle.serprog_runs.specs.Run.{HasRun, HasRunOperation};
ghost use Rattle.serprog_runs.specs.Undone.{ChangeRunKeepsOriginal, FindsChipOf, HasBackedUpIn, IsOnBoard};
ghost use Rattle.serprog_runs.specs.Undone.{IsUndoneFrom, JobRun, ReachesFrom, RestoreRunKeepsOriginal};

use nor_files::Store;
use nor_model::Bus;
use serprog_board::{Board, ChipBus, Connector};

/// States that a run of an operation on a chip performs a job (`HasRun`), except for `--wp-enable` and `--wp-disable`.
/// The other laws are about runs that perform jobs (`JobRun`).
pub fn operations_run_jobs<'b, D: Connector, R: Store>()
    ensures { (files after : R) (name : Bor Text) (operation : Operation) (device : Text) (last : BusState)
        (out out' : Option (List ℕ)) (status : ℕ)
        (run : HasRunOperation (seen_over ⟦<ChipBus<'b, D::Board> as Bus>⟧.state D.Board.state D.Board.expected D.finds)
        (R.state files) (R.state after) name operation device last out out' status) → operation.srp0 ≡ None
        → HasRun operation run.regions run.ranges run.bytes run.made (R.state after)
        (⟦<ChipBus<'b, D::Board> as Bus>⟧.state run.start.bus) last out out' status }
{}

/// States what a run of `--restore` does on a modelled bus, if its journal can restore the original chip `first` at the
/// start.
///
/// At every exit, even if the bus stopped, the journal can still restore `first`. If the exit status is 0, the chip has
/// the bytes and non-volatile status bits of `first`. The possible faults of the job are those of
/// `restores_keep_original` (board_jobs).
pub fn restore_runs_keep_original<R: Store>()
    ensures { (run : JobRun R.state) (file : Bor Text) (journal : Content) (first : Chip)
        → run.operation.task ≡ task.Restore file → IsContent journal → run.bytes ≡ text journal
        → IsModelled run.start → CanRestore journal first run.start → RestoreRunKeepsOriginal journal first run }
{}

/// States what a run of a change does on a modelled bus that is steady or whose chip is idle, if its journal is in a
/// file that obeys its contract.
///
/// At every exit, either the chip is as it was and no modifying command was sent, or the file durably contains a
/// journal that can restore the chip. If the exit status is 0, the chip was changed as asked (`IsChangedAsAsked`).
pub fn change_runs_keep_original<R: Store>()
    ensures { (run : JobRun R.state) (change : Change) (file : Bor Text)
        → run.operation.task ≡ task.Change change → change.journal_use ≡ uses.Journal file
        → IsModelled run.start → IsSteadyOrIdle run.start → is_lawful (R.state run.after).view ≡ true
        → ChangeRunKeepsOriginal change file.now run }
{}

/// States that after the run of a backup with exit status 0 on a modelled bus, the file durably contains a backup of
/// the chip, which can restore it. The file must obey its contract.
pub fn backup_runs_restore_original<R: Store>()
    ensures { (run : JobRun R.state) (file : Bor Text) (regions : Option Regions)
        → run.operation.task ≡ task.Read file regions → run.operation.is_backup ≡ true
        → IsModelled run.start → is_lawful (R.state run.after).view ≡ true → run.status ≡ 0
        → HasBackedUpIn file.now run }
{}

/// States that a run may continue what an earlier run began (`ReachesFrom`), if its connection reached the chip of a
/// well-behaved port (`ReachesChip`) whose programmer and chip fit (`FitsPort`). The chip must be the one that the
/// earlier run left on the bus `last`, even if it lost its power since, and connections failed (`FindsChipOf`).
/// `inside` is the board's bus, below those that read ahead and show the progress.
pub fn connections_reach_chips()
    ensures { (port : PortState) (last inside start : BusState) → ReachesChip port inside → IsAhead inside start
        → FitsPort port → FindsChipOf last port.device.chip → ReachesFrom last start }
{}

/// States the main promise of this program, for any connector and any store of files: a change of the chip on a board
/// can be undone, wherever its run and any number of restores end.
///
/// The run must have reached the chip of a port (`ReachesChip`). The port, its programmer, its chip, and the files at
/// the end must be as modelled (`IsModelledBoard`, `is_lawful`). Then the run found the chip as it was. Either the run
/// left the chip untouched, or the file durably contains a journal, and the first restore from this journal with exit
/// status 0 leaves the original chip (`IsUndoneFrom`). Between two runs the programmer may lose its power, and
/// connections may fail.
///
/// If `connect_over` returns a bus over a well-behaved port to an idle programmer, it has reached the chip.
pub fn changes_on_boards_can_be_undone<'b, D: Connector, R: Store>()
    ensures { (files after : R) (name file : Bor Text) (operation : Operation) (device : Text) (last : BusState)
        (out out' : Option (List ℕ)) (status : ℕ) (change : Change) (port : PortState)
        (run : HasRunOperation
        (seen_over ⟦<ChipBus<'b, D::Board> as Bus>⟧.state D.Board.state D.Board.expected D.finds)
        (R.state files) (R.state after) name operation device last out out' status)
        → operation.srp0 ≡ None → operation.task ≡ task.Change change → change.journal_use ≡ uses.Journal file
        → ReachesChip port (D.Board.state (ahead_of (shown_bus run.start.bus))) → IsModelledBoard port
        → is_lawful (R.state after).view ≡ true
        → IsSame port.device.chip (⟦<ChipBus<'b, D::Board> as Bus>⟧.state run.start.bus).chip
        × (IsUntouched (⟦<ChipBus<'b, D::Board> as Bus>⟧.state run.start.bus) last
        ⊎ IsUndoneFrom R.state file.now (⟦<ChipBus<'b, D::Board> as Bus>⟧.state run.start.bus).chip last
        (R.state after)) }
{}

/// States that a change on a modelled bus can be undone, however the change and any number of restores end.
///
/// The bus must be one to a chip on a board (`IsOnBoard`), the chip idle at the start of the change, and the journal in
/// a file that obeys its contract. Then either the change left the chip untouched, or the file durably contains a
/// journal, and the first restore from this journal that ends with exit status 0 leaves the original chip. Each restore
/// must reach the chip that the run before left (`ReachesFrom`), even if the programmer lost its power in between.
pub fn runs_restore_original<R: Store>()
    ensures { (run : JobRun R.state) (change : Change) (file : Bor Text)
        → run.operation.task ≡ task.Change change → change.journal_use ≡ uses.Journal file
        → IsModelled run.start → IsOnBoard run.start → run.start.chip.busy ≡ 0
        → is_lawful (R.state run.after).view ≡ true
        → IsUntouched run.start run.last
        ⊎ IsUndoneFrom R.state file.now run.start.chip run.last (R.state run.after) }
{}
