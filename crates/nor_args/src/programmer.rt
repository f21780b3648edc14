//! The value of the option `-p`, and the emulated chips that it can name.
ghost use Rattle.std.specs.Prelude.{◌≡◌, false, option_map};
ghost use Rattle.std.specs.Option.{MatchOption};
ghost use Rattle.nor_probe.specs.Table.{IsEmulatedPart};

use crate::flaws::are_settings;
use crate::numbers::{read_byte, read_number, read_polls, read_unique};
use crate::settings::setting_value;
use nor_model::Config;
use nor_probe::{Part, emulated_part};

/// A chip that flashnor emulates: `TINY64`, or a chip that `-L` lists with its ID.
#[derive(Clone, Copy)]
pub struct Emulated {
    /// The chip type that an identification of this chip finds: by the ID or, for TINY64, by the SFDP.
    pub part: Part,
    pub ghost emulated: { IsEmulatedPart part },
}

impl Emulated {
    ghost use Rattle.nor_model.specs.declared.config.Config.{Config};
    ghost use Rattle.nor_probe.specs.Table.{emulated_named};
    ghost use Rattle.nor_args.specs.Programmer.{IsConfigOfEmulated};

    /// Returns the chip with this value of `emulate=`, or `None` for any other name.
    pub fn named(name: &str) -> Option<Emulated>
        ensures { option_map (λ chip. chip.part) result ≡ emulated_named name.now }
    {
        let part = emulated_part(name)?;
        Some(Emulated { part })
    }

    /// Returns the configuration of the chip, with a unique ID of zeros.
    #[tactic(auto, using(nor_probe::proofs::Emulated::emulated_sized))]
    pub fn config(self) -> Config
        ensures { IsConfigOfEmulated self result }
    {
        let Part {
            id,
            size,
            kinds,
            scheme,
            ..
        } = self.part;
        Config::emulated(id, size, kinds, scheme)
    }

    /// Returns the size of the chip in bytes.
    pub fn size(self) -> u32
        ensures size { result ≡ self.part.size }
        ensures configured { (config : Config) → IsConfigOfEmulated self config → config.size ≡ result }
    {
        self.part.size
    }
}

/// The value of `-p`: `dummy:` and settings `key=value` in any order, each key at most once. `emulate=` is required.
#[derive(Clone, Copy)]
pub struct Programmer<'a> {
    pub chip: Emulated,
    pub image: Option<&'a str>,
    /// `status=FILE`: the file with the chip's two status bytes.
    pub status: Option<&'a str>,
    /// `trace=FILE`: the file into which a line is written for each transaction.
    pub trace: Option<&'a str>,
    /// `stop=N`: the number of transactions after which the bus stops.
    pub stop: Option<u64>,
    /// `unique=HEX`: the chip's unique ID, given as 16 hexadecimal digits.
    pub unique: Option<[u8; 8]>,
    /// `busy=N`: the number of polls that show BUSY after each program, erase or status write.
    pub busy: Option<u16>,
    /// `power=HH`: each stop is a power failure. Each byte of the page or block in progress then becomes HH; a status
    /// write in progress is completed if HH is odd, and undone if it is even.
    pub power: Option<u8>,
}

impl<'a> Programmer<'a> {
    ghost use Rattle.nor_args.specs.Programmer.{is_programmer_text, IsProgrammer};

    /// Parses the value of `-p`: a setting ends at the next comma, its key at the first `=`. Returns `None` without
    /// `dummy:` or `emulate=`, for an unknown key, for a wrong value, and for a key that occurs twice.
    pub fn read(text: &'a str) -> Option<Programmer<'a>>
        ensures { MatchOption result (is_programmer_text text.now ≡ false) (IsProgrammer text.now) }
    {
        let list = text.strip_prefix("dummy:")?;
        if !are_settings(list) {
            return None;
        }
        Some(Programmer {
            chip: Emulated::named(setting_value(list, "emulate")?)?,
            image: setting_value(list, "image"),
            status: setting_value(list, "status"),
            trace: setting_value(list, "trace"),
            stop: setting_value(list, "stop").and_then(|value| read_number(value)),
            unique: setting_value(list, "unique").and_then(|value| read_unique(value)),
            busy: setting_value(list, "busy").and_then(|value| read_polls(value)),
            power: setting_value(list, "power").and_then(|value| read_byte(value)),
        })
    }
}
