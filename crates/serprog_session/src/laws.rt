//! Laws (theorems) about what happens between a session and its restores.
ghost use Rattle.std.specs.Prelude.{◌≡◌, ℕ, Bool, List};
ghost use Rattle.nor_model.specs.Chip.{Chip};
ghost use Rattle.nor_model.specs.Power.{PowerLost};
ghost use Rattle.nor_journal.specs.Text.{Content, IsContent, text};
ghost use Rattle.serprog_session.specs.Headline.{CanRestoreChip, CanRestoreChipFrom};

/// States that if the bytes of a vault can restore the original chip `first` from `chip`, so can the journal read from
/// these bytes. The promise of `session_over` is thus the premise of `restore_over`.
pub fn read_restores_chip()
    ensures { (further : Bool) (bytes : List ℕ) (first chip : Chip) (journal : Content)
        → CanRestoreChipFrom further bytes first chip → IsContent journal → bytes ≡ text journal
        → CanRestoreChip further journal first chip }
{}

/// States that if a journal can restore the original chip `first` from a chip, it still can after this chip lost its
/// power: you may disconnect the programmer from power between a session and its restores.
pub fn disconnected_restores_chip()
    ensures { (further : Bool) (journal : Content) (first old new : Chip)
        → CanRestoreChip further journal first old → PowerLost old new → CanRestoreChip further journal first new }
{}
