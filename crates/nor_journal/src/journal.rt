//! Reading a journal, the length of a journal, and laws about journals.
ghost use Rattle.std.specs.Prelude.{◌≡◌, ◌↔◌, ℕ, ◌/◌, ◌<◌, ◌≤◌, Bool, List, ◌++◌};
ghost use Rattle.std.specs.Prelude.{length, take, slice_get};
ghost use Rattle.std.specs.Prelude.{Some, None, IfSome, MatchOption, IfOk, IfErr, OnOk, IsOkAnd};
ghost use Rattle.nor_journal.specs.Text.{Content, IsContent, SameHeader, text};
ghost use Rattle.nor_journal.specs.Saved.{Saves, JournalSaves, HasRecord, saved_in};
ghost use Rattle.nor_journal.specs.Fault.{HasFault};
ghost use Rattle.nor_journal.specs.declared.fault.JournalFault.{JournalFault};

use crate::fault::JournalFault;
use crate::head::{HEADER_LEN, Head, read_head};
use crate::records::{DIGEST_LEN, END_MARK, RECORD_LEN, check_end, count_records, record_at};
use std::marker::Model;

/// A journal that was read, whose saved sectors are borrowed from the bytes read. In contracts it is a `Content`.
#[derive(Drop)]
pub struct Journal<'a> {
    head: Head,
    count: usize,
    // the bytes after the header, which begin with the records
    records: &'a [u8],
}

impl<'a> Model for Journal<'a> {
    ghost use Rattle.nor_journal.specs.Text.{Content, IsContent};

    ghost Value = { Content };

    ghost use Rattle.nor_journal.specs.Reading.{content_at, IsHeader, HasRecords};

    ghost view = { λ j. content_at j.head j.count j.records.now };

    ghost invariant = { λ j. IsHeader j.head × HasRecords j.head j.records.now j.count };
}

impl<'a> Journal<'a> {
    /// Reads a journal of either format. `bytes` must be the whole journal and nothing else. Allocates nothing. If
    /// `bytes` aren't a journal, returns their first fault (see `JournalFault`).
    pub fn read(bytes: &'a [u8]) -> Result<Journal<'a>, JournalFault>
        ensures found { IfOk result (λ journal. IsContent journal × (bytes.now ≡ text journal)) }
        ensures only { (c : Content) → IsContent c → bytes.now ≡ text c
            → IsOkAnd result (λ journal. journal ≡ c) }
        ensures kept { (head : Content) (old : ℕ → ℕ) (saved : ℕ → Bool)
            → JournalSaves head old saved bytes.now
            → IsOkAnd result (λ journal. SameHeader head journal × Saves old saved journal) }
        // If `bytes` are a journal, no proper prefix of `bytes` is a journal.
        ensures whole { OnOk result ((c : Content) (n : ℕ) → IsContent c → take n bytes.now ≡ text c
            → length bytes.now ≤ n) }
        ensures fault { IfErr result (HasFault bytes.now) }
    {
        Self::read_parts(bytes)
    }

    fn read_parts(bytes: &'a [u8]) -> Result<Journal<'a>, JournalFault>
        ensures found { IfOk result (λ journal. IsContent journal × (bytes.now ≡ text journal)) }
        ensures fault { IfErr result (HasFault bytes.now) }
    {
        let (head, records) = read_head(bytes)?;
        let count = count_records(&head, records)?;
        check_end(bytes, bytes.len() - records.len() + RECORD_LEN * count)?;
        Ok(Journal {
            head,
            count,
            records,
        })
    }

    pub fn id(&self) -> [u8; 3]
        ensures value { result ≡ self.now.id }
        ensures sound { IsContent self.now }
    {
        self.head.id
    }

    /// Returns the eight bytes of the chip's unique ID, or `None` for a journal of format 1, which doesn't contain it.
    pub fn unique(&self) -> Option<[u8; 8]>
        ensures value { result ≡ self.now.unique }
        ensures sound { IsContent self.now }
    {
        self.head.unique
    }

    /// Returns the bytes of status 1 and status 2 that the header contains.
    pub fn status(&self) -> [u8; 2]
        ensures value { result ≡ self.now.status }
        ensures sound { IsContent self.now }
    {
        self.head.status
    }

    /// Returns the chip's size in bytes.
    pub fn size(&self) -> u32
        ensures value { result ≡ self.now.size }
        ensures sound { IsContent self.now }
    {
        self.head.size
    }

    /// Returns the number of saved sectors.
    pub fn count(&self) -> usize
        ensures value { result ≡ length self.now.saved }
        ensures sound { IsContent self.now }
    {
        self.count
    }

    /// Returns the number and the 4,096 bytes of the saved sector with index `i`, which must be less than `count()`.
    pub fn sector(&self, i: usize) -> (u32, &'a [u8])
        requires { i < length self.now.saved }
        ensures value { slice_get self.now.saved i ≡ Some (record { number = result.0; bytes = result.1.now }) }
        ensures saved { saved_in self.now.saved result.0 ≡ Some result.1.now }
        ensures place { result.0 < self.now.size / 4096 }
        ensures whole { length result.1.now ≡ 4096 }
        ensures sound { IsContent self.now }
    {
        record_at(self.records, i)
    }

    /// Returns the 4,096 bytes saved for this sector, or `None` if it isn't saved. Uses binary search.
    pub fn find(&self, sector: u32) -> Option<&'a [u8]>
        ensures value { MatchOption result (saved_in self.now.saved sector ≡ None)
            (λ bytes. saved_in self.now.saved sector ≡ Some bytes.now) }
        ensures whole { IfSome result (λ bytes. length bytes.now ≡ 4096) }
        ensures sound { IsContent self.now }
    {
        let mut low = 0;
        let mut high = self.count();
        while low < high {
            let middle = low + (high - low) / 2;
            let (number, bytes) = self.sector(middle);
            if number == sector {
                return Some(bytes);
            }
            if number < sector {
                low = middle + 1;
            } else {
                high = middle;
            }
        }
        None
    }
}

/// A law: each journal has one content, and no journal is a proper prefix of another journal.
pub fn one_text()
    ensures { (c d : Content) (x y : List ℕ) → IsContent c → IsContent d → text c ++ x ≡ text d ++ y
        → (c ≡ d) × (x ≡ y) }
{}

/// Returns the length in bytes of a journal of format 2 that saves `sectors` sectors.
pub fn journal_len(sectors: u32) -> u64
    ensures { (c : Content) (unique : List ℕ) → IsContent c → c.unique ≡ Some unique → length c.saved ≡ sectors
        → length (text c) ≡ result }
{
    let fixed = HEADER_LEN + END_MARK.len() + DIGEST_LEN;
    fixed as u64 + RECORD_LEN as u64 * u64::from(sectors)
}

/// A law: bytes have at most one first fault (`HasFault`).
pub fn one_fault()
    ensures { (bytes : List ℕ) (f g : JournalFault) → HasFault bytes f → HasFault bytes g → f ≡ g }
{}

/// A law: `saved_in` finds `bytes` for a sector in a valid content if and only if the content has a record with the
/// sector's number and `bytes`.
pub fn one_record()
    ensures { (c : Content) (sector : ℕ) (bytes : List ℕ) → IsContent c
        → saved_in c.saved sector ≡ Some bytes ↔ HasRecord c sector bytes }
{}
