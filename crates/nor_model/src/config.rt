//! The properties of a chip that never change, and their values for the emulated chips.
ghost use Rattle.std.specs.Prelude.{◌≡◌, ◌≤◌, ◌-◌, ◌*◌, ◌++◌, ◌↔◌, true, length, replicate, IsTrue, IsSome, IfSome};
ghost use Rattle.nor_model.specs.Size.{is_chip_size};
ghost use Rattle.nor_model.specs.Sfdp.{sfdp_with};

use nor_geometry::is_chip_size;

/// The SFDP bytes of the emulated chip `TINY64`, from address 0 on (JESD216). They were made for this project.
pub const TINY64_SFDP: [u8; 52] = [
    0x53, 0x46, 0x44, 0x50, 0x00, 0x01, 0x00, 0xFF, // signature, revision 1.0, one header
    0x00, 0x00, 0x01, 0x09, 0x10, 0x00, 0x00, 0xFF, // basic table, nine double words, at 10h
    0x05, 0x20, 0x00, 0x00, // double word 1: 20h erases 4 KiB, pages of 64 bytes or more, 3 address bytes
    0xFF, 0xFF, 0x07, 0x00, // double word 2: the chip's size in bits, minus one
    0x00, 0x00, 0x00, 0x00, 0x00, 0x00, 0x00, 0x00, 0x00, 0x00, // double words 3 to 7
    0x00, 0x00, 0x00, 0x00, 0x00, 0x00, 0x00, 0x00, 0x00, 0x00, //
    0x0C, 0x20, 0x0F, 0x52, // double word 8: 20h erases 4 KiB, 52h erases 32 KiB
    0x10, 0xD8, 0x00, 0x00, // double word 9: D8h erases 64 KiB
];

/// The erase types that a chip has besides 4 KiB (20h) and the whole chip (C7h), which every modelled chip has.
#[derive(Clone, Copy, Debug, PartialEq, Eq)]
pub struct Kinds {
    /// True if 52h erases 32 KiB.
    pub k32: bool,
    /// True if D8h erases 64 KiB.
    pub k64: bool,
}

pub const ALL_KINDS: Kinds = Kinds {
    k32: true,
    k64: true,
};

/// The properties of a chip that never change. `size` is in bytes. `scheme` is true if the chip has block protection.
#[derive(Clone, Copy)]
pub struct Config {
    pub id: [u8; 3],
    pub size: u32,
    pub kinds: Kinds,
    pub scheme: bool,
    pub unique: [u8; 8],
    pub sfdp: [u8; 256],
    pub ghost sized: { IsTrue (is_chip_size size) },
}

impl Config {
    ghost use Rattle.nor_model.specs.Makers.{HasParts, IsEmulatedWith, IsTiny64, IsW25q64fv, IsW25q128fv};

    /// Returns a configuration with a unique ID of zeros, and with `sfdp` padded with FFh to 256 bytes. Returns `None`
    /// if `size` isn't a power of two from 65,536 to 16,777,216, or if `sfdp` has more than 256 bytes.
    pub fn new(
        id: [u8; 3],
        size: u32,
        k32: bool,
        k64: bool,
        scheme: bool,
        sfdp: &[u8],
    ) -> Option<Config>
        ensures allowed { IsSome result ↔ ((is_chip_size size ≡ true) × (length sfdp.now ≤ 256)) }
        ensures made { IfSome result (HasParts id size (record { k32 = k32; k64 = k64 }) scheme sfdp.now) }
    {
        if !is_chip_size(size) || sfdp.len() > 256 {
            return None;
        }
        Some(Config {
            id,
            size,
            kinds: Kinds { k32, k64 },
            scheme,
            unique: [0; 8],
            sfdp: padded(sfdp),
        })
    }

    /// Returns the emulated chip `TINY64`: 64 KiB, ID `FE 10 10`, all erase types, no block protection.
    pub fn tiny64() -> Config
        ensures { IsTiny64 result }
    {
        Self::emulated([0xFE, 0x10, 0x10], 65_536, ALL_KINDS, false)
    }

    /// Returns the emulated chip `W25Q64FV` (Winbond): 8 MiB, ID `EF 40 17`, all erase types, block protection.
    pub fn w25q64fv() -> Config
        ensures { IsW25q64fv result }
    {
        Self::emulated([0xEF, 0x40, 0x17], 8_388_608, ALL_KINDS, true)
    }

    /// Returns the emulated chip `W25Q128FV` (Winbond): 16 MiB, ID `EF 40 18`, all erase types, block protection.
    pub fn w25q128fv() -> Config
        ensures { IsW25q128fv result }
    {
        Self::emulated([0xEF, 0x40, 0x18], 16_777_216, ALL_KINDS, true)
    }

    /// Returns an emulated chip with these properties and a unique ID of zeros. `size` must be a power of two from
    /// 65,536 to 16,777,216. The SFDP bytes describe the erase types 20h, 52h and D8h, even those that `kinds` lacks.
    pub fn emulated(id: [u8; 3], size: u32, kinds: Kinds, scheme: bool) -> Config
        requires { IsTrue (is_chip_size size) }
        ensures { IsEmulatedWith id size kinds scheme result }
    {
        Config {
            id,
            size,
            kinds,
            scheme,
            unique: [0; 8],
            sfdp: padded(&sfdp_of(size)),
        }
    }

    /// Returns this configuration with its unique ID replaced by `unique`. (W25Q64FV datasheet, Read Unique ID Number.)
    pub fn with_unique(self, unique: [u8; 8]) -> Config
        ensures { result ≡ record self { unique = unique } }
    {
        let mut config = self;
        config.unique = unique;
        config
    }
}

fn sfdp_of(size: u32) -> [u8; 52]
    requires { IsTrue (is_chip_size size) }
    ensures { result ≡ sfdp_with (8 * size - 1) }
{
    let mut bytes = TINY64_SFDP;
    bytes[0x14..0x18].copy_from_slice(&(8 * size - 1).to_le_bytes());
    bytes
}

fn padded(sfdp: &[u8]) -> [u8; 256]
    requires { length sfdp.now ≤ 256 }
    ensures { result ≡ sfdp.now ++ replicate (256 - length sfdp.now) 255 }
{
    let mut bytes = [0xFF; 256];
    bytes[..sfdp.len()].copy_from_slice(sfdp);
    bytes
}
