//! Plans how to change sectors: whether a sector must be written or erased, which span of each page that differs must
//! be programmed, and which erases are the fewest for a set of sectors.
//!
//! ```rust
//! use nor_plan::{PageSpan, raises, spans};
//!
//! let old = [0xFF; 1024];
//! let mut wanted = old;
//! wanted[5] = 0x00;
//! assert!(rt; !raises(&old, &wanted) && raises(&wanted, &old));
//! let mut list = spans(&old, &wanted);
//! assert_eq!(rt; list.next(), Some(PageSpan { first: 5, last: 5 }));
//! assert_eq!(rt; list.next(), None);
//! ```
#![tactic(auto)]

mod erase;
mod lanes;
mod page;
mod plan;
mod set;

pub use erase::{Erases, erases, fewest_is_least};
pub use lanes::{bounds, differs, raises};
pub use page::{PageSpan, Spans, spans};
pub use plan::{Plan, SectorPlan};
pub use set::SectorSet;
