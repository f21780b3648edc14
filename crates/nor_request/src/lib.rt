//! The requests, the reports and the errors of sessions and other calls. Each error has a number and a text.
//!
//! ```rust
//! use nor_request::{Refusal, Request};
//!
//! let erase = Request::erase().verified();
//! assert!(rt; erase.is_data());
//! let refusal = Refusal::Protected { address: 0x1000 };
//! assert_eq!(rt; refusal.number(), 10);
//! let text = format!(in rt.alloc(); "{refusal}")?;
//! assert_eq!(rt; text.as_str(), "protected at 0x001000");
//! ```
#![tactic(auto)]

mod refusal;
mod report;
mod request;

pub use refusal::Refusal;
pub use report::Report;
pub use request::{Request, What};
