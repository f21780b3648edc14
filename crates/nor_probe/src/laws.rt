//! A theorem about known chips, which is the contract of a function that does nothing.
ghost use Rattle.std.specs.Prelude.{◌≡◌, ◌⊎◌, ℕ, Bool, true, false, List, Some};
ghost use Rattle.nor_model.specs.declared.config.Config.{Config};
ghost use Rattle.nor_model.specs.Makers.{IsTiny64, IsW25q64fv, IsW25q128fv};
ghost use Rattle.nor_probe.specs.declared.table.Part.{Part};
ghost use Rattle.nor_probe.specs.Table.{part_for, IsMadeOf};
ghost use Rattle.nor_probe.specs.Known.{IsKnown, IsEmulated};

/// States that TINY64, W25Q64FV and W25Q128FV are emulated chips. On a bus without further types, each emulated chip is
/// known: a probe can identify it, and it is genuine. On a bus with further types, each chip made of a row or a further
/// row (`IsMadeOf`) is known. A known chip stays known if only its unique ID is replaced.
pub fn emulated_are_known()
    ensures made { (config : Config) → IsTiny64 config ⊎ IsW25q64fv config ⊎ IsW25q128fv config → IsEmulated config }
    ensures known { (config : Config) → IsEmulated config → IsKnown false config }
    ensures further { (part : Part) (config : Config) → part_for true part.id ≡ Some part → IsMadeOf part config
        → IsKnown true config }
    ensures renumbered { (further : Bool) (config : Config) (unique : List ℕ) → IsKnown further config
        → IsKnown further (record config { unique = unique }) }
{}
