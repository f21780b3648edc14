//! The announcement that a session or restore makes before it changes the chip.
ghost use Rattle.std.specs.Prelude.{◌≡◌};
ghost use Rattle.nor_apply.specs.Applying.{AreConsistent};
ghost use Rattle.nor_session.specs.Announcing.{announcement_of};

use nor_apply::Changes;
use nor_plan::erases;

/// The numbers of touched sectors and of erases, which a session, restore or rewrite passes to a closure before it
/// changes the chip. For a rewrite every saved sector counts as touched.
#[derive(Clone, Copy, Debug, PartialEq, Eq)]
pub struct Announcement {
    pub touched: u32,
    pub erases: u32,
}

pub(crate) fn announce_changes<F: FnOnce(Announcement)>(
    announce: F,
    changes: &Changes,
    touched: u32,
)
    requires callable { F.IsAlwaysCallable announce }
    requires consistent { AreConsistent changes.now }
    ensures { F.post announce (announcement_of changes.now touched) tt }
{
    let erases = erases(&changes.raised, changes.kinds, changes.size).count() as u32;
    announce(Announcement { touched, erases });
}
