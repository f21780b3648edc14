//! Which of the bits 2 to 6 of status 1 may protect sectors, by the chip's maker, and what to do if such a bit is set.
ghost use Rattle.std.specs.Prelude.{◌≡◌};
ghost use Rattle.board_jobs.specs.Jobs.{protecting_bits};

/// The meaning of bits 2 to 6 of status 1 on the chips of a maker.
#[derive(Clone, Copy)]
pub(crate) struct StatusBits {
    /// The bits that must be clear before a write or an erase, because one that is set may protect sectors or prevent
    /// the change.
    pub may_protect: u8,
    pub meaning: &'static str,
    pub advice: &'static str,
}

/// Returns the meaning of bits 2 to 6 of status 1 on a chip with this ID. The meaning is used only for a chip without a
/// row in nor_probe, whose SFDP says that sectors of 4 KiB can be erased everywhere. The sources are the sections
/// Status Register of the makers' datasheets, which are cited from memory.
///
/// `may_protect` lacks bit 6 of Macronix and ISSI (QE) and bit 5 of Microchip's SST26 (SEC, which shows that the
/// one-time area is locked), because these bits protect no sector on the makers' chips that have SFDP.
pub(crate) fn status_bits(id: [u8; 3], status1: u8) -> StatusBits
    ensures { result.may_protect ≡ protecting_bits id }
{
    match (id, status1 & 0x7C) {
        ([0xEF, ..], _) => WINBOND,
        ([0xC8, ..], _) => GIGADEVICE,
        ([0xC2, ..], _) => MACRONIX,
        ([0x9D, ..], _) => ISSI,
        ([0x20, ..], _) => MICRON,
        ([0x1C, ..], _) => EON,
        ([0x01, ..], _) => SPANSION,
        ([0x1F, ..], _) => ADESTO,
        ([0xBF, 0x26, _], _) => SST26,
        (_, 0x40) => MAYBE_QUAD,
        _ => OTHERS,
    }
}

// Bits 6 to 2 are SEC TB BP2 BP1 BP0 (W25Q16JV, W25Q80DV) or TB BP3 BP2 BP1 BP0 (W25Q256JV).
const WINBOND: StatusBits = StatusBits {
    may_protect: 0x7C,
    meaning: "On Winbond's chips its bits 2 to 6 (BP0 to BP2, TB, SEC) protect sectors.",
    advice: CLEAR,
};

// Bits 6 to 2 are BP4 BP3 BP2 BP1 BP0 (GD25Q64C, GD25Q128E).
const GIGADEVICE: StatusBits = StatusBits {
    may_protect: 0x7C,
    meaning: "On GigaDevice's chips its bits 2 to 6 (BP0 to BP4) protect sectors.",
    advice: CLEAR,
};

// Bits 6 to 2 are QE BP3 BP2 BP1 BP0 (MX25L12835F, MX25U6435F, MX25R6435F). MX25L6405D: bit 6 is CP.
const MACRONIX: StatusBits = StatusBits {
    may_protect: 0x3C,
    meaning: "On Macronix's chips its bits 2 to 5 (BP0 to BP3) protect sectors.",
    advice: LIFT,
};

// Bits 6 to 2 are QE BP3 BP2 BP1 BP0 (IS25LP128, IS25WP064, IS25LQ032).
const ISSI: StatusBits = StatusBits {
    may_protect: 0x3C,
    meaning: "On ISSI's chips its bits 2 to 5 (BP0 to BP3) protect sectors.",
    advice: LIFT,
};

// Bits 6 to 2 are BP3 TB BP2 BP1 BP0 (N25Q064A, MT25QL128), or SEC TB BP2 BP1 BP0 on XMC's XM25QH64C.
const MICRON: StatusBits = StatusBits {
    may_protect: 0x7C,
    meaning: "On the chips of Micron and XMC its bits 2 to 6 (BP, TB, SEC) protect sectors.",
    advice: LIFT,
};

// Bits 6 to 2 are WHDIS BP3 BP2 BP1 BP0 (EN25QH64). On other chips bit 6 may have another meaning.
const EON: StatusBits = StatusBits {
    may_protect: 0x7C,
    meaning: "On Eon's chips its bits 2 to 5 (BP0 to BP3) protect sectors, and on some perhaps bit 6.",
    advice: LIFT,
};

// Bits 6 to 2 are SEC TB BP2 BP1 BP0 (S25FL128L, S25FL164K). The S25FL128S, whose bits 6 and 5 are P_ERR and E_ERR, is
// refused earlier.
const SPANSION: StatusBits = StatusBits {
    may_protect: 0x7C,
    meaning: "On Spansion's chips its bits 2 to 6 (BP0 to BP2, TB, SEC) protect sectors.",
    advice: LIFT,
};

// Bits 6 to 2 are SEC TB BP2 BP1 BP0 (AT25SF128A), or RES EPE WPP SWP SWP (AT25DF321A). SWP shows protection.
const ADESTO: StatusBits = StatusBits {
    may_protect: 0x7C,
    meaning: "On Adesto's chips its bits 2 to 6 protect sectors, or bits 2 and 3 say that some are protected.",
    advice: LIFT,
};

// Bits 6 to 2 are RES SEC WPLD WSP WSE (SST26VF064B).
const SST26: StatusBits = StatusBits {
    may_protect: 0x5C,
    meaning: "On SST26 chips its bits 2 and 3 say that an erase or a program is suspended, and bit 4 that the locks of \
    the blocks can't be changed.",
    advice: "Disconnect the chip from power, and try again.",
};

const MAYBE_QUAD: StatusBits = StatusBits {
    may_protect: 0x7C,
    meaning: "Its bit 6 may protect sectors, as on Winbond's chips. Or it is QE, as on those of Macronix and ISSI, but \
    then this chip's SFDP doesn't say so.",
    advice: "If the datasheet says that bit 6 is QE, write this chip with another tool (flashrom), or clear QE if the \
    board doesn't need it, and try again.",
};

const OTHERS: StatusBits = StatusBits {
    may_protect: 0x7C,
    meaning: "On nearly every chip its bits 2 to 6 protect sectors, and this program doesn't know what they mean on \
    this chip.",
    advice: LIFT,
};

// flashrom has --wp options for chips of Winbond and GigaDevice.
const CLEAR: &str =
    "Clear these bits with another tool (flashrom --wp-disable, then flashrom --wp-range=0,0), and try again.";

// Before a write or an erase, flashrom lifts the protection of the chips that it knows (from memory).
const LIFT: &str =
    "Write this chip with another tool that lifts its protection (flashrom -w), or clear these bits, and try again.";
