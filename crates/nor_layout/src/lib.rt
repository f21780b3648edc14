//! Layout files, which name regions of a flash chip, and the sets of addresses that a request includes: those in its
//! ranges (of named regions, for example) or, if the request has no ranges, the whole chip.
//!
//! ```rust
//! use nor_layout::{Layout, LayoutFault, Ranges, Span};
//!
//! let layout = Layout::read(rt.alloc(), b"0:fff a\n800:17ff b\n1800:1fff c\n")?;
//! let included = layout.include("b,a")?;
//! assert_eq!(rt; included.spans(), [Span { first: 0, last: 0x17ff }].as_slice());
//! assert!(rt; !included.contains(0x1800));
//!
//! let ends = [Span { first: 0x1800, last: 0x1fff }, Span { first: 0, last: 0x7ff }];
//! let apart = Ranges::of(&ends).ok_or(LayoutFault::TooMany)?;
//! assert!(rt; apart.contains(0x7ff) && !apart.contains(0x800));
//! ```
#![tactic(auto)]

mod address;
mod fault;
mod included;
mod layout;
mod line;
mod merge;
mod positions;
mod ranges;
mod region;

pub use fault::{LayoutFault, LineFault};
pub use included::{blank_excluded, fill_excluded, includes, includes_in_sector, reaches_past};
pub use layout::{Layout, RegionFault};
pub use ranges::{Ranges, Span};
pub use region::Region;
