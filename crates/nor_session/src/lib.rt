//! Sessions that change a flash chip and can be undone, the restores that undo them, rehearsals of both, and backups of
//! whole chips.
//!
//! ```rust
//! use nor_chip::{Config, Delays, Meter, SimBus};
//! use nor_journal::{Journal, MemVault};
//! use nor_session::{Request, restore, session};
//!
//! let idle = Delays { now: 0, each: 0 };
//! let before = vec![in rt.alloc(); 0xFF; 65536]?;
//! let mut bus = SimBus::new(Config::tiny64(), before.clone()?, [0x00, 0x00], idle)?;
//! bus.allow(u64::MAX);
//!
//! let mut image = before.clone()?;
//! image[0] = 0x5A;
//! let wanted = image.clone()?; // `session` may change the image
//! let request = Request::write().verified();
//! let mut vault = MemVault::new(rt.alloc());
//! session(&mut bus, &mut vault, &mut image, &request)?;
//! assert_eq!(rt; bus.bytes(), wanted.as_slice());
//! restore(&mut bus, &Journal::read(vault.bytes())?)?;
//! assert_eq!(rt; bus.bytes(), before.as_slice());
//! ```
//!
//! The files in `specs/` define what each call promises. Read `Headline.antt` first, and then `Session.antt`,
//! `Restore.antt`, `Rehearsal.antt` and `Backup.antt`. `IsModelled` of nor_probe says for which buses most promises
//! are made. `laws.rt` has theorems on calls that follow one another, on chips in files, and on backups.
#![tactic(auto)]

mod announcement;
mod backups;
mod checks;
mod judged;
mod kept;
mod laws;
mod prepare_restore;
mod rehearsals;
mod restores;
mod sessions;
mod sources;

pub use announcement::Announcement;
pub use backups::backup;
pub use laws::{
    backup_restores_any, backup_restores_original, begun_restores_original,
    power_lost_restores_original, read_is_backup, read_restores_original, restore_written_over,
    restored_stays, same_written_over, session_can_be_rewritten, session_written_over,
    undone_in_turn, undone_is_restorable,
};
pub use nor_request::{Refusal, Report, Request, What};
pub use rehearsals::{Rehearsal, rehearse};
pub use restores::{restore, restore_announced, rewrite, rewrite_announced};
pub use sessions::{accepted_alone, session, session_announced};
