//! Flash descriptors and FMAPs, written by hand from the descriptions of the formats.
use crate::held::{assert_held, assert_that};
use nor_layout::{Layout, RegionFault};
use nor_maps::{MapFault, read_descriptor, read_fmap};

const LEN: usize = 4096;

type Piece = (usize, &'static [u8]);

// The pieces of an image, the chip's size, the expected regions (name, start and end), and the expected fault, if any.
type Case = (
    &'static [Piece],
    u32,
    &'static [(&'static [u8], u32, u32)],
    Option<MapFault>,
);

fn image_of(first: &[Piece], second: &[Piece]) -> [u8; LEN] {
    let mut image = [0xFF; LEN];
    for (at, bytes) in first.iter().chain(second) {
        for (slot, byte) in image.iter_mut().skip(*at).zip(*bytes) {
            *slot = *byte;
        }
    }
    image
}

fn are_regions(layout: &Layout, wanted: &[(&[u8], u32, u32)]) -> bool {
    let regions = layout.regions();
    let mut pairs = regions.iter().zip(wanted);
    regions.len() == wanted.len()
        && pairs.all(|(region, (name, start, end))| region.name.as_slice() == *name
            && region.start == *start
            && region.end == *end)
}

fn is_of_case(read: Result<Layout, MapFault>, case: &Case) -> bool {
    let (_, _, regions, fault) = case;
    match read {
        Ok(layout) => fault.is_none() && are_regions(&layout, regions),
        Err(found) => *fault == Some(found),
    }
}

// Each of these has the signature 0FF0A55Ah, FLMAP0 with the region table at 40h, and FLMAP1 with the masters' section
// at 60h (chipsets up to the 9 series) or 80h (from the 100 series on).
const NR_2: &[u8] = &[0x5A, 0xA5, 0xF0, 0x0F, 3, 0, 4, 2, 6, 2, 0x10, 0x12];

const NR_6: &[u8] = &[0x5A, 0xA5, 0xF0, 0x0F, 3, 0, 4, 6, 6, 2, 0x10, 0x15];

const SERIES_100: &[u8] = &[0x5A, 0xA5, 0xF0, 0x0F, 3, 0, 4, 0, 8, 2, 0x10, 0x45];

// Five entries of a region table: base and limit of two bytes each, little-endian, in units of 4 KiB.
const FIVE: &[u8] = &[
    0, 0, 0, 0, 0, 5, 0xFF, 7, 3, 0, 0xFF, 4, 1, 0, 2, 0, 0xFF, 0x1F, 0, 0,
];

const SIXTEEN: &[u8] = &[
    0, 0, 0, 0, 1, 0, 1, 0, 2, 0, 2, 0, 3, 0, 3, 0, 4, 0, 4, 0, 5, 0, 5, 0, 6, 0, 6, 0, 7, 0, 7, 0,
    8, 0, 8, 0, 9, 0, 9, 0, 10, 0, 10, 0, 11, 0, 11, 0, 12, 0, 12, 0, 13, 0, 13, 0, 14, 0, 14, 0,
    15, 0, 15, 0,
];

const DESCRIPTORS: &[Case] = &[
    // Entry 3 is used, although the descriptor states only three regions.
    (
        &[(0x10, NR_2), (0x40, FIVE)],
        0x80_0000,
        &[
            (b"fd", 0, 0xFFF),
            (b"bios", 0x50_0000, 0x7F_FFFF),
            (b"me", 0x3000, 0x4F_FFFF),
            (b"gbe", 0x1000, 0x2FFF),
        ],
        None,
    ),
    // The region of entry 1 ends with the last 4 KiB of a chip of 8 MiB, so it doesn't fit a smaller chip.
    (
        &[(0x10, NR_2), (0x40, FIVE)],
        0x7F_FFFF,
        &[],
        Some(MapFault::Outside { record: 1 }),
    ),
    // The signature is at 0. An entry whose four bytes are 0 is unused, except entry 0.
    (
        &[(0, NR_2), (0x40, &[0, 0, 0, 0, 1, 0, 1, 0, 0, 0, 0, 0])],
        0x2000,
        &[(b"fd", 0, 0xFFF), (b"bios", 0x1000, 0x1FFF)],
        None,
    ),
    // The descriptor states seven regions, so the entries from 7 on are no regions.
    (
        &[(0x10, NR_6), (0x40, SIXTEEN)],
        0x1_0000,
        &[
            (b"fd", 0, 0xFFF),
            (b"bios", 0x1000, 0x1FFF),
            (b"me", 0x2000, 0x2FFF),
            (b"gbe", 0x3000, 0x3FFF),
            (b"pd", 0x4000, 0x4FFF),
            (b"reg5", 0x5000, 0x5FFF),
            (b"bios2", 0x6000, 0x6FFF),
        ],
        None,
    ),
    (
        &[(0x10, SERIES_100), (0x40, SIXTEEN)],
        0x1_0000,
        &[
            (b"fd", 0, 0xFFF),
            (b"bios", 0x1000, 0x1FFF),
            (b"me", 0x2000, 0x2FFF),
            (b"gbe", 0x3000, 0x3FFF),
            (b"pd", 0x4000, 0x4FFF),
            (b"reg5", 0x5000, 0x5FFF),
            (b"bios2", 0x6000, 0x6FFF),
            (b"reg7", 0x7000, 0x7FFF),
            (b"ec", 0x8000, 0x8FFF),
            (b"reg9", 0x9000, 0x9FFF),
            (b"ie", 0xA000, 0xAFFF),
            (b"10gbe", 0xB000, 0xBFFF),
            (b"reg12", 0xC000, 0xCFFF),
            (b"reg13", 0xD000, 0xDFFF),
            (b"reg14", 0xE000, 0xEFFF),
            (b"reg15", 0xF000, 0xFFFF),
        ],
        None,
    ),
    (
        &[(0x10, SERIES_100), (0x40, SIXTEEN)],
        0xF000,
        &[],
        Some(MapFault::Outside { record: 15 }),
    ),
    // All bytes of the region table are FFh, so no entry is used.
    (&[(0x10, SERIES_100)], 0x1_0000, &[], None),
    // The signature is at 20h, but must be at 10h or at 0.
    (
        &[(0x20, SERIES_100)],
        0x1_0000,
        &[],
        Some(MapFault::Missing),
    ),
    // The region table is at FF0h, so its fifth entry is past the end of the descriptor.
    (
        &[(0x10, NR_2), (0x16, &[0xFF])],
        0x1_0000,
        &[],
        Some(MapFault::Short),
    ),
];

#[test]
fn flash_descriptors(rt: HostRuntime) {
    for (number, case) in DESCRIPTORS.iter().enumerate() {
        let image = image_of(&[], case.0);
        let read = read_descriptor(rt.alloc(), &image, case.1);
        assert_held(&rt, is_of_case(read, case), number as u64);
    }
    let image = image_of(&[(0x10, NR_2)], &[(0x40, FIVE)]);
    let short = image.get(..LEN - 1).unwrap_or(&image[..]);
    let read = read_descriptor(rt.alloc(), short, 0x80_0000);
    assert_that!(&rt; read.err() == Some(MapFault::Short));
}

// The signature, version 1.1, the base FFFFF000h in eight bytes, and the size 1000h.
const HEADER: &[u8] = b"__FMAP__\x01\x01\x00\xF0\xFF\xFF\0\0\0\0\x00\x10\0\0";

// Fields of 32 bytes for names. The last one, `WHOLE`, contains no NUL.
const FLASH: &[u8] = b"FLASH\0\0\0\0\0\0\0\0\0\0\0\0\0\0\0\0\0\0\0\0\0\0\0\0\0\0\0";

const RO: &[u8] = b"RO\0left over\0\0\0\0\0\0\0\0\0\0\0\0\0\0\0\0\0\0\0\0";

const GBB: &[u8] = b"GBB\0\0\0\0\0\0\0\0\0\0\0\0\0\0\0\0\0\0\0\0\0\0\0\0\0\0\0\0\0";

const BLANK: &[u8] = b"GBB Area\0\0\0\0\0\0\0\0\0\0\0\0\0\0\0\0\0\0\0\0\0\0\0\0";

const WHOLE: &[u8] = b"ABCDEFGHIJKLMNOPQRSTUVWXYZabcdef";

// The header at 200h and three areas: `RO` at 0, `GBB` at 100h, and one with a name of 32 letters at 800h.
const AT_200: &[Piece] = &[
    (0x200, HEADER),
    (0x216, FLASH),
    (0x236, &[3, 0]),
    (0x238, &[0, 0, 0, 0, 0, 8, 0, 0]),
    (0x240, RO),
    (0x260, &[2, 0, 0, 1, 0, 0, 0, 3, 0, 0]),
    (0x26A, GBB),
    (0x28A, &[2, 0, 0, 8, 0, 0, 0, 8, 0, 0]),
    (0x294, WHOLE),
    (0x2B4, &[2, 0]),
];

const ALL: &[(&[u8], u32, u32)] = &[
    (b"RO", 0, 0x7FF),
    (b"GBB", 0x100, 0x3FF),
    (WHOLE, 0x800, 0xFFF),
];

const WRONG_NAME: Option<MapFault> = Some(MapFault::Region {
    record: 2,
    fault: RegionFault::Name,
});

const NAMED_TWICE: Option<MapFault> = Some(MapFault::Region {
    record: 2,
    fault: RegionFault::Twice,
});

// The pieces of each case, if any, overwrite bytes of the image that `AT_200` describes.
const FMAPS: &[Case] = &[
    (&[], 0x1000, ALL, None),
    (&[], 0xFFF, &[], Some(MapFault::Outside { record: 3 })),
    // A string at 100h contains the signature, and a second FMAP, without areas, is at 800h.
    (
        &[
            (0x100, b"__FMAP__\0"),
            (0x800, HEADER),
            (0x816, FLASH),
            (0x836, &[0, 0]),
        ],
        0x1000,
        ALL,
        None,
    ),
    // The FMAP has B6h bytes, so its size field can't be B5h.
    (&[(0x212, &[0xB6, 0])], 0x1000, ALL, None),
    (&[(0x212, &[0xB5, 0])], 0x1000, &[], Some(MapFault::Missing)),
    (&[(0x207, b".")], 0x1000, &[], Some(MapFault::Missing)),
    (&[(0x208, &[2])], 0x1000, &[], Some(MapFault::Missing)),
    (&[(0x209, &[2])], 0x1000, ALL, None),
    // The name in the header has no NUL, or contains a blank.
    (&[(0x216, WHOLE)], 0x1000, &[], Some(MapFault::Missing)),
    (&[(0x216, BLANK)], 0x1000, &[], Some(MapFault::Missing)),
    // Area 2 has a name with a blank, no name, the name of area 1, or an end above 4 GiB.
    (&[(0x26A, BLANK)], 0x1000, &[], WRONG_NAME),
    (&[(0x26A, b"\0")], 0x1000, &[], WRONG_NAME),
    (&[(0x26A, RO)], 0x1000, &[], NAMED_TWICE),
    (
        &[(0x262, &[0xFF; 8])],
        0x1000,
        &[],
        Some(MapFault::Outside { record: 2 }),
    ),
    // Area 2 has size 0, so it is skipped, even with a blank in its name.
    (
        &[(0x266, &[0, 0, 0, 0, b' '])],
        0x1000,
        &[(b"RO", 0, 0x7FF), (WHOLE, 0x800, 0xFFF)],
        None,
    ),
    // The header states 65,535 areas in an image of FFFFFFFFh bytes.
    (
        &[(0x236, &[0xFF, 0xFF]), (0x212, &[0xFF; 4])],
        0x1000,
        &[],
        Some(MapFault::Short),
    ),
];

#[test]
fn fmaps(rt: HostRuntime) {
    for (number, case) in FMAPS.iter().enumerate() {
        let image = image_of(AT_200, case.0);
        let read = read_fmap(rt.alloc(), &image, case.1);
        assert_held(&rt, is_of_case(read, case), number as u64);
    }
}

// `read_fmap` needs only the bytes of the FMAP. It returns `Missing` without the first byte, `Short` without the last.
#[test]
fn an_fmap_without_an_image(rt: HostRuntime) {
    let alloc = rt.alloc();
    let image = image_of(AT_200, &[]);
    let whole: Case = (&[], 0x1000, ALL, None);
    let part = image.get(0x200..0x2B6).unwrap_or(&[]);
    let read = read_fmap(alloc, part, 0x1000);
    assert_that!(&rt; is_of_case(read, &whole));
    let part = image.get(..0x2B5).unwrap_or(&[]);
    let cut = read_fmap(alloc, part, 0x1000);
    assert_that!(&rt; cut.err() == Some(MapFault::Short));
    let part = image.get(0x201..).unwrap_or(&image[..]);
    let none = read_fmap(alloc, part, 0x1000);
    assert_that!(&rt; none.err() == Some(MapFault::Missing));
}
