//! Requests for a session.
ghost use Rattle.std.specs.Prelude.{◌≡◌, true, Some};
ghost use Rattle.nor_request.specs.Request.{is_data, plain};
ghost use Rattle.nor_request.specs.declared.request.What.TheVariants as Whats;

use nor_layout::Ranges;
use nor_probe::ChipName;

/// The change that a session makes. For a write or an erase, the session's image must be as long as the chip.
#[derive(Clone, Copy, Debug, PartialEq, Eq)]
pub enum What {
    /// A write: each included byte becomes the image's byte at the same address.
    Write,
    /// An erase: each included byte becomes FFh.
    Erase,
    /// A change of the protection bits: afterwards exactly the `len` addresses from `start` on are protected.
    WpRange { start: u32, len: u32 },
}

/// A request for a session. A new request accepts any chip and includes all addresses; `unlock` and `verify` are false.
#[derive(Clone, Debug, Drop)]
pub struct Request {
    pub what: What,
    pub named: Option<ChipName>,
    /// The addresses whose bytes may change, or `None` for the whole chip. A protection range ignores this field.
    pub included: Option<Ranges>,
    /// Whether the session lifts protection that is in its way, and sets it again. A protection range ignores this.
    pub unlock: bool,
    /// Whether the session reads the touched sectors back and compares them. A protection range touches no sector.
    pub verify: bool,
}

impl Request {
    pub const fn write() -> Request
        ensures { result ≡ plain Whats.Write }
    {
        Request::plain(What::Write)
    }

    pub const fn erase() -> Request
        ensures { result ≡ plain Whats.Erase }
    {
        Request::plain(What::Erase)
    }

    pub const fn protect(start: u32, len: u32) -> Request
        ensures { result ≡ plain (Whats.WpRange start len) }
    {
        Request::plain(What::WpRange { start, len })
    }

    const fn plain(what: What) -> Request
        ensures { result ≡ plain what }
    {
        Request {
            what,
            named: None,
            included: None,
            unlock: false,
            verify: false,
        }
    }

    pub fn named(self, name: ChipName) -> Request
        ensures { result ≡ record self { named = Some name } }
    {
        Request {
            named: Some(name),
            ..self
        }
    }

    pub fn included(self, ranges: Ranges) -> Request
        ensures { result ≡ record self { included = Some ranges } }
    {
        Request {
            included: Some(ranges),
            ..self
        }
    }

    pub fn unlocked(self) -> Request
        ensures { result ≡ record self { unlock = true } }
    {
        Request {
            unlock: true,
            ..self
        }
    }

    pub fn verified(self) -> Request
        ensures { result ≡ record self { verify = true } }
    {
        Request {
            verify: true,
            ..self
        }
    }

    /// Returns whether the request is a write or an erase, not a protection range.
    pub fn is_data(&self) -> bool
        ensures { result ≡ is_data self.now.what }
    {
        !matches!(self.what, What::WpRange { .. })
    }
}
