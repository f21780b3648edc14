//! Journals, with which a change of a chip can be undone, and vaults, which receive the bytes of a journal.
//!
//! A journal contains the original chip's ID, unique ID (only in format 2), size and status bytes, and the contents of
//! the saved sectors. Format 2 is written; formats 1 and 2 are read.
//!
//! ```rust
//! use nor_journal::{Journal, MemVault, Writer, journal_len};
//!
//! let mut vault = MemVault::new(rt.alloc());
//! let writer = Writer::start(&mut vault, [0xFE, 0x10, 0x10], [0; 8], [0, 0], 65536)?;
//! writer.sector(0, &[0xFF; 4096])?.end()?;
//! assert_eq!(rt; vault.bytes().len() as u64, journal_len(1));
//! let journal = Journal::read(vault.bytes())?;
//! assert_eq!(rt; (journal.size(), journal.count()), (65536, 1));
//! assert!(rt; journal.find(0).is_some() && journal.find(1).is_none());
//! ```
#![tactic(auto)]

mod broken;
mod fault;
mod file;
mod file_vault;
mod head;
mod journal;
mod mem_vault;
mod number;
mod records;
mod vault;
mod writer;

pub use broken::BrokenVault;
pub use fault::JournalFault;
pub use file::VaultFile;
pub use file_vault::FileVault;
pub use head::{FIRST_MAGIC, MAGIC};
pub use journal::{Journal, journal_len, one_fault, one_record, one_text};
pub use mem_vault::MemVault;
pub use vault::{DurableVault, Vault, VaultFault};
pub use writer::Writer;
