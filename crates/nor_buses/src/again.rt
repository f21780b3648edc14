//! Second reads, compared with the first ones: of all bytes, or only of the sectors that differ from an expected image.
ghost use Rattle.std.specs.Prelude.{◌≡◌, ◌≢◌, ◌<◌, ◌≤◌, ◌+◌, ◌/◌, ◌∷◌, true, false, ℕ, length, OnOk, OnErr, IfOk};
ghost use Rattle.nor_model.specs.Bus.{IsHonestFor, SameNature, Carries};
ghost use Rattle.nor_model.specs.History.{replied};
ghost use Rattle.nor_buses.specs.ReadsAs.{part, KeepsRecord};
ghost use Rattle.nor_buses.specs.Twice.{begins_read};
ghost use Rattle.nor_buses.specs.Keeps.{KeepsAll, StopsUnread};
ghost use Rattle.nor_buses.specs.Again.{CarriesOther};
ghost use Rattle.nor_buses.specs.Again.{IsExpected, DiffersInSector, DiffersBetween, data_read, RepeatsBelow, HasData};

use nor_geometry::SECTOR_LEN;
use nor_model::opcodes::READ_DATA;
use nor_model::{Bus, Stopped};

#[derive(Clone, Copy)]
struct Run {
    end: usize,
    is_expected: bool,
}

// Repeats the read `out`, whose first reply was `reply`, into `again`. Returns whether both replies are the same.
pub(crate) fn is_repeated<B: Bus>(
    bus: &mut B,
    out: &[u8],
    reply: &[u8],
    again: &mut [u8],
) -> Result<bool, Stopped>
    requires { length reply.now ≤ length again.old }
    ensures nature { SameNature (B.state bus.old) (B.state bus.new) }
    ensures record { begins_read out.now ≡ true → KeepsRecord (B.state bus.old) (B.state bus.new) }
    ensures passed { begins_read out.now ≡ true → (B.state bus.new).passed ≡ (B.state bus.old).passed }
    ensures repeated { IfOk result (λ same. same ≡ true
        → (B.state bus.new).history ≡ replied out.now reply.now ∷ (B.state bus.old).history) }
    ensures carries { IsHonestFor out.now (length reply.now) (B.state bus.old) → IfOk result (λ same. same ≡ true
        → Carries out.now reply.now (B.state bus.old) (B.state bus.new)) }
    ensures differs { IsHonestFor out.now (length reply.now) (B.state bus.old) → IfOk result (λ same. same ≡ false
        → CarriesOther out.now reply.now (B.state bus.old) (B.state bus.new)) }
    ensures stops { IsHonestFor out.now (length reply.now) (B.state bus.old) → (B.state bus.old).punctual ≡ true
        → OnErr result ((B.state bus.new).left ≡ 0) }
    ensures keeps { IsHonestFor out.now (length reply.now) (B.state bus.old) → begins_read out.now ≡ true
        → OnOk result (KeepsAll (B.state bus.old) (B.state bus.new)) }
    ensures stopped { IsHonestFor out.now (length reply.now) (B.state bus.old) → begins_read out.now ≡ true
        → OnErr result (StopsUnread (B.state bus.old) (B.state bus.new)) }
{
    let second = &mut again[..reply.len()];
    bus.transfer(out, &mut *second)?;
    Ok(are_same(reply, second))
}

// Reads again the sectors of `reply` that differ from the image, neighbouring sectors with one transaction. `reply` was
// read from `address` on. Returns false as soon as a second reply differs from the first one, and true if none differs.
pub(crate) fn is_repeated_or_expected<B: Bus>(
    bus: &mut B,
    image: &[u8],
    address: u32,
    reply: &[u8],
    again: &mut [u8],
) -> Result<bool, Stopped>
    requires fits { address + length reply.now ≤ 16777216 }
    requires len { length reply.now ≤ length again.old }
    ensures nature { SameNature (B.state bus.old) (B.state bus.new) }
    ensures record { KeepsRecord (B.state bus.old) (B.state bus.new) }
    ensures passed { (B.state bus.new).passed ≡ (B.state bus.old).passed }
    ensures repeated { IfOk result (λ same. same ≡ true
        → RepeatsBelow image.now address reply.now (length reply.now) (B.state bus.old) (B.state bus.new)) }
    ensures same { IsHonestFor (data_read address) (length reply.now) (B.state bus.old)
        → HasData (B.state bus.old).chip address reply.now → IfOk result (λ same. same ≡ true) }
    ensures stops { IsHonestFor (data_read address) (length reply.now) (B.state bus.old)
        → (B.state bus.old).punctual ≡ true → OnErr result ((B.state bus.new).left ≡ 0) }
    ensures keeps { IsHonestFor (data_read address) (length reply.now) (B.state bus.old)
        → OnOk result (KeepsAll (B.state bus.old) (B.state bus.new)) }
    ensures stopped { IsHonestFor (data_read address) (length reply.now) (B.state bus.old)
        → OnErr result (StopsUnread (B.state bus.old) (B.state bus.new)) }
{
    let mut done = 0;
    while done < reply.len() {
        let run = run_from(image, address, reply, done);
        if !run.is_expected {
            let out = data_read(address + done as u32);
            if !is_repeated(bus, &out, &reply[done..run.end], again)? {
                return Ok(false);
            }
        }
        done = run.end;
    }
    Ok(true)
}

// Returns a run of sectors, from the index `from` on, that all equal the image or that all differ from the image.
fn run_from(image: &[u8], address: u32, reply: &[u8], from: usize) -> Run
    requires fits { address + length reply.now ≤ 16777216 }
    requires some { from < length reply.now }
    ensures after { from < result.end }
    ensures within { result.end ≤ length reply.now }
    ensures expected { result.is_expected ≡ true → (i : ℕ) → from ≤ i → i < result.end
        → IsExpected image.now address reply.now i }
    ensures differs { result.is_expected ≡ false → (i : ℕ) → from ≤ i → i < result.end
        → DiffersInSector image.now address reply.now i }
{
    let mut end = sector_end(address, from, reply.len());
    let is_expected = is_at(image, address, reply, from, end);
    while end < reply.len() {
        let next = sector_end(address, end, reply.len());
        if is_at(image, address, reply, end, next) != is_expected {
            break;
        }
        end = next;
    }
    Run { end, is_expected }
}

fn sector_end(address: u32, from: usize, len: usize) -> usize
    requires fits { address + len ≤ 16777216 }
    requires some { from < len }
    ensures after { from < result }
    ensures within { result ≤ len }
    ensures sector { (i : ℕ) → from ≤ i → i < result → (address + i) / 4096 ≡ (address + from) / 4096 }
{
    let left = SECTOR_LEN as usize - (address as usize + from) % SECTOR_LEN as usize;
    len.min(from + left)
}

fn is_at(image: &[u8], address: u32, reply: &[u8], from: usize, to: usize) -> bool
    requires some { from < to }
    requires within { to ≤ length reply.now }
    requires fits { address + to ≤ 16777216 }
    ensures equal { result ≡ true → (i : ℕ) → from ≤ i → i < to → IsExpected image.now address reply.now i }
    ensures differs { result ≡ false → DiffersBetween image.now address reply.now from to }
{
    let start = address as usize;
    match image.get(start + from..start + to) {
        Some(expected) => are_same(expected, &reply[from..to]),
        None => false,
    }
}

fn data_read(address: u32) -> [u8; 4]
    requires { address ≤ 16777215 }
    ensures { result ≡ data_read address }
{
    let [_, high, middle, low] = address.to_be_bytes();
    [READ_DATA, high, middle, low]
}

fn are_same(first: &[u8], second: &[u8]) -> bool
    ensures same { result ≡ true → second.now ≡ first.now }
    ensures differ { result ≡ false → second.now ≢ first.now }
{
    first == second
}
