//! Layouts that an image itself contains: the flash descriptor of Intel's chipsets, and Chromium's FMAP.
//!
//! ```rust
//! use nor_maps::{MapFault, read_descriptor, read_fmap};
//!
//! let mut image = [0xFF; 4096];
//! image[0x10..0x1C].copy_from_slice(&[0x5A, 0xA5, 0xF0, 0x0F, 3, 0, 4, 0, 8, 2, 0x10, 0x45]);
//! image[0x40..0x48].copy_from_slice(&[0, 0, 0, 0, 1, 0, 15, 0]);
//! let layout = read_descriptor(rt.alloc(), &image, 0x1_0000)?;
//! let bios = layout.include("bios")?;
//! assert!(rt; bios.contains(0x1000) && bios.contains(0xFFFF) && !bios.contains(0xFFF));
//! assert_eq!(rt; read_descriptor(rt.alloc(), &image, 0x8000).err(), Some(MapFault::Outside { record: 1 }));
//! assert_eq!(rt; read_fmap(rt.alloc(), &image, 0x1_0000).err(), Some(MapFault::Missing));
//! ```
#![tactic(auto)]

mod descriptor;
mod fault;
mod fmap;
mod record;

pub use descriptor::read_descriptor;
pub use fault::MapFault;
pub use fmap::read_fmap;
