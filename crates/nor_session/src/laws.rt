//! Laws (theorems) on sessions and restores that follow one another, on chips in files, and on backups.
ghost use Rattle.std.specs.Prelude.{◌≡◌, ◌⊎◌, true, ℕ, List};
ghost use Rattle.nor_model.specs.Bus.{BusState};
ghost use Rattle.nor_model.specs.Chip.{Chip, IsChip, IsSame};
ghost use Rattle.nor_journal.specs.Text.{Content, IsContent, text};
ghost use Rattle.nor_journal.specs.Vault.{VaultState};
ghost use Rattle.nor_request.specs.declared.report.Report.{Report};
ghost use Rattle.nor_request.specs.declared.request.Request.{Request};
ghost use Rattle.nor_probe.specs.Known.{IsKnown, IsModelled};
ghost use Rattle.nor_apply.specs.Within.{IsWithin};
ghost use Rattle.nor_session.specs.Backup.{SavesWholeChip, IsBackupOf, writable_addresses};
ghost use Rattle.nor_session.specs.InTurn.{LeavesJournal, LosesPower, MayLosePower, IsTakenUp, ChangesNothing};
ghost use Rattle.nor_session.specs.Headline.{SavesChip, CanRestore, CanBeRewritten};
ghost use Rattle.nor_session.specs.Restore.{IsRestored};
ghost use Rattle.nor_session.specs.Session.{CanBeUndone, HoldsBegun};
ghost use Rattle.nor_session.specs.WrittenOver.{IsWrittenOver};

/// States that if a journal saves the chip in its present state (`SavesChip`), for example after another restore, a
/// restore from this journal that succeeds on a modelled bus changes nothing.
pub fn restored_stays()
    ensures { (journal : Content) (first : Chip) (old new : BusState) (report : Report)
        → SavesChip journal first → IsSame first old.chip → IsRestored journal old new report
        → ChangesNothing journal old new report }
{}

/// States that a journal that can restore the original chip can still do so after the chip lost its power, provided
/// that the bus wasn't steady, or that the chip was idle.
pub fn power_lost_restores_original()
    ensures { (journal : Content) (first : Chip) (old new : BusState)
        → CanRestore journal first old → LosesPower old new → CanRestore journal first new }
{}

/// States that if a session on a modelled bus sealed a `telling` vault, the journal in this vault saves no sector that
/// a locked status of the original chip protects. Therefore, if this journal can restore the original chip, a
/// `rewrite` on a modelled bus can only fail with error 12.
pub fn session_can_be_rewritten()
    ensures { (request : Request) (image : List ℕ) (old new : BusState) (journal : Content)
        → LeavesJournal request image old new journal → CanBeRewritten journal old.chip }
{}

/// States that if two sessions ran one after the other, and a restore from the later journal then succeeded, the
/// earlier journal can restore the chip as it was before the first session.
///
/// Both journals are in sealed `telling` vaults, all buses are modelled, and the same further types (`further`)
/// apply on the first and the last. Other restores from the later journal may have been stopped, if that journal can
/// still restore the chip as it was before the second session. Between two runs the chip may lose its power or be
/// opened from files, as `IsTakenUp` says.
pub fn undone_is_restorable()
    ensures { (request later : Request) (image later_image : List ℕ) (old mid mid' new new' back : BusState)
        (journal other : Content) (report : Report)
        → LeavesJournal request image old mid journal → IsTakenUp old mid mid'
        → LeavesJournal later later_image mid' new other
        → IsTakenUp mid' new new' ⊎ CanRestore other mid'.chip new'
        → IsRestored other new' back report → back.further ≡ old.further → CanRestore journal old.chip back }
{}

/// States that if restores from the journals of two successive sessions succeed in the reverse order, the chip has the
/// contents and non-volatile status bits that it had before the first session. The premises are those of
/// `undone_is_restorable`, except `further`. Between the two restores the chip may lose its power, and restores from
/// the earlier journal may be stopped, if that journal can still restore the chip as it was before the first session.
pub fn undone_in_turn()
    ensures { (request later : Request) (image later_image : List ℕ) (old mid mid' new new' back back' end : BusState)
        (journal other : Content) (report last : Report)
        → LeavesJournal request image old mid journal → IsTakenUp old mid mid'
        → LeavesJournal later later_image mid' new other
        → IsTakenUp mid' new new' ⊎ CanRestore other mid'.chip new'
        → IsRestored other new' back report
        → MayLosePower back back' ⊎ CanRestore journal old.chip back'
        → IsRestored journal back' end last → IsSame old.chip end.chip }
{}

/// States that after a session on a modelled bus, the journal that is read from the session's sealed `telling` vault
/// can restore the original chip.
pub fn read_restores_original()
    ensures { (request : Request) (image : List ℕ) (old new : BusState) (vault : VaultState) (journal : Content)
        → IsModelled old → IsChip old.chip → vault.telling ≡ true → CanBeUndone request image old new vault
        → IsContent journal → vault.bytes ≡ text journal → CanRestore journal old.chip new }
{}

/// States that if the bytes of an unsealed `telling` vault are a journal after a session on a modelled bus, that
/// journal can restore the original chip. The chip must be idle, with its original bytes and non-volatile status bits,
/// and its bus must have the same `further`.
pub fn begun_restores_original()
    ensures { (request : Request) (image : List ℕ) (old new : BusState) (bytes : List ℕ) (journal : Content)
        → IsModelled old → IsChip old.chip → HoldsBegun old.further request image old.chip bytes
        → IsContent journal → bytes ≡ text journal → IsSame old.chip new.chip → new.chip.busy ≡ 0
        → new.further ≡ old.further → CanRestore journal old.chip new }
{}

/// States that if files with the original chip were being overwritten with the chip after a session on a modelled bus,
/// the journal from the session's sealed `telling` vault can restore the original chip on a chip that is opened from
/// these files, on a bus with the same `further`.
pub fn session_written_over()
    ensures { (request : Request) (image : List ℕ) (old new opened : BusState) (vault : VaultState) (journal : Content)
        → IsModelled old → IsChip old.chip → vault.telling ≡ true → CanBeUndone request image old new vault
        → IsContent journal → vault.bytes ≡ text journal → IsWrittenOver old.chip new.chip opened.chip
        → opened.further ≡ old.further → CanRestore journal old.chip opened }
{}

/// States that if a journal can restore the original chip before and after a restore, the journal can also do so on a
/// chip that is opened from files, on a bus with the same `further`. These files held the chip before the restore, and
/// were being overwritten with the chip after the restore.
pub fn restore_written_over()
    ensures { (journal : Content) (first : Chip) (old new opened : BusState)
        → CanRestore journal first old → CanRestore journal first new → IsWrittenOver old.chip new.chip opened.chip
        → opened.further ≡ new.further → CanRestore journal first opened }
{}

/// States that while files are overwritten with the chip that they already hold, they hold that chip at each moment.
pub fn same_written_over()
    ensures { (old new opened : Chip) → IsSame old new → IsWrittenOver old new opened → IsSame old opened }
{}

/// States that if some journal can restore a chip, a backup of that chip can restore the chip too.
pub fn backup_restores_original()
    ensures { (journal backup : Content) (first : Chip) (state : BusState)
        → SavesWholeChip backup first → CanRestore journal first state → CanRestore backup first state }
{}

/// States that a backup can restore the known chip (`IsKnown`) that it saves, even if bytes changed in sectors that no
/// session touched. The chip on the bus may differ from the saved chip as `IsWithin` allows for `writable_addresses`.
pub fn backup_restores_any()
    ensures { (backup : Content) (first : Chip) (state : BusState) → IsKnown state.further first.config
        → SavesWholeChip backup first → IsWithin (writable_addresses first) first state
        → CanRestore backup first state }
{}

/// States that the journal that is read from the bytes of a chip's backup (`IsBackupOf`) saves the whole chip.
pub fn read_is_backup()
    ensures { (first : Chip) (bytes : List ℕ) (journal : Content) → IsBackupOf bytes first → IsContent journal
        → bytes ≡ text journal → SavesWholeChip journal first }
{}
