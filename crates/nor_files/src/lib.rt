//! The files that a run of the program reads and writes by their names, and the trait `Store`, which is their contract.
//! Contracts describe the bytes of each file, what a host crash may leave of it, and how many calls can still succeed.
//!
//! ```rust
//! use nor_files::{Loss, Memory, Store};
//! use nor_journal::Vault;
//!
//! let mut files = Memory::new(rt.alloc(), u64::MAX);
//! files.put("image", b"abcd")?;
//! files.write_over("image", b"wxyz")?;
//! files.sync("image")?;
//! let mut journal = files.vault_in_new("journal")?;
//! journal.put(b"efgh")?;
//! journal.seal()?;
//! let left = files.lose_lent(journal, Loss::Unsynced, 0);
//! assert!(rt; left.bytes_of("image") == Some(b"wxyz".as_slice()));
//! assert!(rt; left.bytes_of("journal") == Some(b"efgh".as_slice()));
//! ```
#![tactic(auto)]

mod disk;
mod folder;
mod held;
mod identity;
mod locks;
mod making;
mod memory;
mod store;
mod stored;

pub use disk::Disk;
pub use locks::LockFile;
pub use making::{LogFile, VaultedFile};
pub use memory::Memory;
pub use store::{CreateFault, LockFault, Store, Stream};
pub use stored::Loss;
