//! The preparation of a job: a run checks and reads the files, starts the log, and identifies the programmer.
ghost use Rattle.std.specs.Prelude.{◌≡◌, IfOk, IfSome, option_map};
ghost use Rattle.nor_files.specs.Files.{AreUntouched};
ghost use Rattle.nor_journal.specs.MemVault.{held_by};
ghost use Rattle.nor_buses.specs.Ahead.{ahead_of};
ghost use Rattle.board_progress.specs.ProgressBus.{shown_bus};
ghost use Rattle.serprog_runs.specs.Connected.{IsAhead, device_of, seen_over};
ghost use Rattle.serprog_board.specs.Unused.{IsUnused};
ghost use Rattle.board_progress.specs.Logging.{CreatesLog};
ghost use Rattle.board_files.specs.Regions.{regions_of};
ghost use Rattle.serprog_runs.specs.Run.{IsPrepared};
ghost use Rattle.board_files.specs.Sources.{ArePlainNames, AreUsed, MayExpectImage};

use crate::chip_layouts::{form_on_chip, read_chip_layout};
use crate::connected::{Connected, connect_by};
use crate::run_fault::RunFault;
use board_files::{
    Farthest, Included, RegionFile, check_region_files, find_included, has_own_log, have_one_role,
    image_of, is_session, prepare_sources, print_replaced, read_source,
};
use board_jobs::check_new;
use board_progress::{Screen, Terminal, check_log, check_started, start_log};
use nor_args::{Operation, Task};
use nor_files::{LogFile, Store};
use nor_jobs::Sources;
use nor_journal::{Journal, MemVault};
use nor_model::Bus;
use serprog_board::{Checks, ChipBus, Connector, Rules, Setting};
use std::fs::File;
use std::io::Write;

/// The contents of an operation's files, and the bus to its chip.
#[derive(Drop)]
pub struct Prepared<'a, B> {
    pub regions: Vec<RegionFile<'a>>,
    /// The included region that has the greatest address.
    pub farthest: Option<Farthest<'a>>,
    pub sources: Sources,
    pub connected: Connected<B>,
}

/// Prepares the operation, and returns the first fault. Checks and reads the files (`read_files`), starts the log, and
/// identifies the programmer for the job. `names` must come from `plain_names`.
#[tactic(auto, using(crate::proofs::LogMade::log_steps))]
pub fn prepare<'a, 'b, D: Connector, R: Store<Log = LogFile<File>>, E: Write>(
    rt: &'b HostRuntime,
    connector: &mut D,
    screen: &'b Screen,
    files: &mut R,
    setting: &Setting<'a>,
    operation: &Operation<'a>,
    names: &'a str,
    errors: &mut E,
) -> Result<Prepared<'a, ChipBus<'b, D::Board>>, RunFault<'a>>
    requires { ArePlainNames (regions_of operation.now.task) names.now }
    ensures logged { CreatesLog operation.now.log (R.state files.old) (R.state files.new) }
    ensures ok { IfOk result (λ prepared. IsPrepared
        (seen_over ⟦<ChipBus<'b, D::Board> as Bus>⟧.state D.Board.state D.Board.expected D.finds)
        (R.state files.old).view setting.now.device operation.now
        prepared.regions.items prepared.sources.included prepared.sources.bytes.items) }
    ensures named { IfOk result (λ prepared. device_of prepared.connected ≡ setting.now.device.now) }
    ensures fresh { IfOk result (λ prepared. IsUnused (⟦<ChipBus<'b, D::Board> as Bus>⟧.state prepared.connected.bus)) }
    ensures finds { IfOk result (λ prepared. D.finds (device_of prepared.connected)
        (ahead_of (shown_bus prepared.connected.bus))) }
    ensures ahead { IfOk result (λ prepared. IsAhead
        (D.Board.state (ahead_of (shown_bus prepared.connected.bus)))
        (⟦<ChipBus<'b, D::Board> as Bus>⟧.state prepared.connected.bus)) }
    ensures expected { IfOk result (λ prepared. MayExpectImage operation.now prepared.sources.bytes.items
        (D.Board.expected (ahead_of (shown_bus prepared.connected.bus)))) }
{
    let terminal = Terminal::new(rt, screen, operation.progress, operation.is_verbose);
    let read = read_files(
        rt, connector, terminal, files, setting, operation, names, errors,
    )?;
    let JobFiles {
        regions,
        farthest,
        sources,
    } = read;
    let image = image_of(&sources, operation);
    start_log(files, screen.log(), operation.log, keeps_log(operation))?;
    check_started(screen.log(), operation.log)?;
    print_replaced(errors, operation);
    let rules = rules_for(operation, &sources.bytes);
    let connected = connect_by(connector, rt.alloc(), terminal, setting, image, rules)?;
    Ok(Prepared {
        regions,
        farthest,
        sources,
        connected,
    })
}

#[derive(Drop)]
struct JobFiles<'a> {
    regions: Vec<RegionFile<'a>>,
    farthest: Option<Farthest<'a>>,
    sources: Sources,
}

// Checks and reads the files of the operation, and returns the first fault. The roles of the files, the log, the file
// of a backup, and the image are checked before a layout is read from the chip (`read_chip_layout`).
fn read_files<'a, 'b, D: Connector, R: Store<Log = LogFile<File>>, E: Write>(
    rt: &'b HostRuntime,
    connector: &mut D,
    terminal: Terminal<'b>,
    files: &mut R,
    setting: &Setting<'a>,
    operation: &Operation<'a>,
    names: &'a str,
    errors: &mut E,
) -> Result<JobFiles<'a>, RunFault<'a>>
    requires { ArePlainNames (regions_of operation.now.task) names.now }
    ensures same { AreUntouched (R.state files.old) (R.state files.new) }
    ensures ok { IfOk result (λ read. IsPrepared
        (seen_over ⟦<ChipBus<'b, D::Board> as Bus>⟧.state D.Board.state D.Board.expected D.finds)
        (R.state files.old).view setting.now.device operation.now
        read.regions.items read.sources.included read.sources.bytes.items) }
{
    have_one_role(files, setting.device, &operation.task)?;
    has_own_log(files, setting.device, operation)?;
    check_log(files, operation.log)?;
    check_new(files, operation)?;
    let early = read_early(files, operation)?;
    let chip = read_chip_layout(connector, rt.alloc(), terminal, setting, operation, errors)?;
    let included = find_included(files, &operation.task, names, bytes_of(&chip))?;
    let Included {
        ranges,
        files: regions,
        farthest,
    } = included;
    check_region_files(files, setting.device, operation, &regions)?;
    let bytes = read_late(files, operation, early)?;
    let sources = prepare_sources(files, &operation.task, bytes, ranges, &regions)?;
    Ok(JobFiles {
        regions,
        farthest,
        sources,
    })
}

fn checks_for(operation: &Operation<'_>) -> Checks {
    if operation.srp0.is_some() {
        Checks::Lock
    } else if is_session(&operation.task) {
        Checks::Guarded
    } else {
        Checks::Protection
    }
}

// Returns the rules of the bus for this operation. For a session or a backup, which makes a journal, the bus refuses a
// chip that a restore can't write. The rules for a restore depend on its journal in `bytes`, because older versions of
// this program saved QE (if it is bit 6 of status 1) and a missing unique ID as they were read.
fn rules_for(operation: &Operation<'_>, bytes: &[u8]) -> Rules {
    let reading = Rules::reading();
    let checks = checks_for(operation);
    match (&operation.task, checks) {
        (_, Checks::Lock) => Rules { checks, ..reading },
        (Task::Restore { .. }, _) => match Journal::read(bytes) {
            Ok(journal) => Rules {
                before: id_before(&journal),
                hides_quad: journal.status()[0] & BIT6 == 0,
                missing_unique: missing_in(journal.unique()),
                ..reading
            },
            Err(_) => reading,
        },
        _ if operation.is_backup || is_session(&operation.task) => Rules {
            checks,
            hides_quad: true,
            refuses_uneven: true,
            ..reading
        },
        _ => reading,
    }
}

// Returns the journal's ID if the journal's status 2 isn't 00h, because the session then read status 2 with 35h.
fn id_before(journal: &Journal<'_>) -> Option<[u8; 3]> {
    if journal.status()[1] != 0 {
        Some(journal.id())
    } else {
        None
    }
}

// Returns the byte that replaces each byte of a missing unique ID: FFh if `unique` has only FFh, otherwise 0.
fn missing_in(unique: Option<[u8; 8]>) -> u8 {
    let Some(bytes) = unique else {
        return 0;
    };
    if bytes == [0xFF; 8] { 0xFF } else { 0 }
}

// Bit 6 of status 1, which is QE on some makers' chips.
const BIT6: u8 = 0x40;

// Returns whether an existing log is kept. A restore appends to its log, which may be that of the session to undo.
fn keeps_log(operation: &Operation<'_>) -> bool {
    matches!(operation.task, Task::Restore { .. })
}

// Reads and checks the image before a layout is read from the chip, because that read may take minutes. Returns `None`
// if the layout isn't on the chip.
fn read_early<'a, R: Store>(
    files: &mut R,
    operation: &Operation<'a>,
) -> Result<Option<Vec<u8>>, RunFault<'a>>
    ensures same { AreUntouched (R.state files.old) (R.state files.new) }
    ensures ok { IfOk result (λ early. IfSome early (λ bytes. AreUsed (R.state files.old).view
        operation.now.is_replaced_chip operation.now.task bytes.items)) }
{
    match form_on_chip(&operation.task) {
        Some(_) => {
            let bytes = read_source(files, &operation.task, operation.is_replaced_chip)?;
            Ok(Some(bytes))
        }
        None => Ok(None),
    }
}

// Returns the bytes in `early`. If it is `None`, reads and checks the image or the journal.
fn read_late<'a, R: Store>(
    files: &mut R,
    operation: &Operation<'a>,
    early: Option<Vec<u8>>,
) -> Result<Vec<u8>, RunFault<'a>>
    requires { IfSome early (λ bytes. AreUsed (R.state files.old).view
        operation.now.is_replaced_chip operation.now.task bytes.items) }
    ensures same { AreUntouched (R.state files.old) (R.state files.new) }
    ensures ok { IfOk result (λ bytes. AreUsed (R.state files.old).view
        operation.now.is_replaced_chip operation.now.task bytes.items) }
{
    match early {
        Some(bytes) => Ok(bytes),
        None => {
            let bytes = read_source(files, &operation.task, operation.is_replaced_chip)?;
            Ok(bytes)
        }
    }
}

fn bytes_of(vault: &Option<MemVault>) -> Option<&[u8]>
    ensures { option_map (λ bytes. bytes.now) result ≡ option_map (λ vault. (held_by vault).bytes) vault.now }
{
    match vault {
        Some(vault) => Some(vault.bytes()),
        None => None,
    }
}
