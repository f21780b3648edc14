//! Compares reads that overlap, to detect a chip in four-byte mode.
ghost use Rattle.std.specs.Prelude.{◌≡◌, ◌≤◌, ◌<◌, ◌^◌, true};
ghost use Rattle.nor_serprog.specs.Harmless.{StaysHarmless};
ghost use Rattle.nor_serprog.specs.Link.{is_in_step, port_of};
ghost use Rattle.nor_serprog.specs.Replies.{AwaitsCommand};
ghost use Rattle.serprog_board.specs.Looking.{EndsLooking};
ghost use Rattle.serprog_board.specs.Ports.{asked_over};

use crate::port_fault::PortFault;
use crate::programmer_fault::ProgrammerFault;
use crate::trial_reads::{MOST, PLACES, STEP, read};
use nor_serprog::{Link, Port};

// The result of comparing two reads that overlap.
#[derive(Clone, Copy)]
enum Overlap {
    // The reads agree, and the bytes aren't all equal.
    Agrees,
    // More than half of the bytes differ.
    DiffersInMost,
    // At most half of the bytes differ: for example only the first byte, on an empty chip in four-byte mode.
    DiffersInFew,
    // All bytes are equal, or a repeated read returned other bytes.
    Unknown,
}

/// Compares overlapping reads until they agree at a trial address. Fails with `Addresses` if the reads differ as they
/// do on a chip in four-byte mode.
pub fn compare_overlaps<P: Port<Cause = PortFault> + Drop>(
    link: &mut Link<P>,
    len: usize,
) -> Result<(), ProgrammerFault>
    requires some { 1 ≤ len }
    requires most { len ≤ 32 }
    ensures harmless { StaysHarmless (asked_over P.state link.old) (asked_over P.state link.new) }
    ensures nature { (P.state (port_of link.new)).honest ≡ (P.state (port_of link.old)).honest }
    ensures looks { AwaitsCommand (P.state (port_of link.old)) → is_in_step link.old ≡ true
        → EndsLooking P.state result link.old link.new }
{
    let mut differs_in_most = false;
    let mut always_differs = true;
    for place in 0..PLACES {
        let address = place * STEP;
        match try_overlap(link, address, len)? {
            Overlap::Agrees => return Ok(()),
            Overlap::DiffersInMost => differs_in_most = true,
            Overlap::DiffersInFew => {}
            Overlap::Unknown => always_differs = false,
        }
    }
    if differs_in_most || always_differs {
        Err(ProgrammerFault::Addresses)
    } else {
        Ok(())
    }
}

// Reads `len` bytes at `address`, and `len - 1` bytes at the next address. If the overlapping bytes differ, repeats the
// reads.
fn try_overlap<P: Port<Cause = PortFault> + Drop>(
    link: &mut Link<P>,
    address: u32,
    len: usize,
) -> Result<Overlap, ProgrammerFault>
    requires address { address < 2 ^ 23 }
    requires some { 1 ≤ len }
    requires most { len ≤ 32 }
    ensures harmless { StaysHarmless (asked_over P.state link.old) (asked_over P.state link.new) }
    ensures nature { (P.state (port_of link.new)).honest ≡ (P.state (port_of link.old)).honest }
    ensures looks { AwaitsCommand (P.state (port_of link.old)) → is_in_step link.old ≡ true
        → EndsLooking P.state result link.old link.new }
{
    let mut first = [0; MOST];
    let mut second = [0; MOST];
    read(link, address, &mut first[..len])?;
    read(link, address + 1, &mut second[1..len])?;
    if first[1..len] == second[1..len] {
        let is_varied = first[1..len].iter().any(|byte| *byte != first[0]);
        return Ok(if is_varied {
            Overlap::Agrees
        } else {
            Overlap::Unknown
        });
    }
    let mut again = [0; MOST];
    read(link, address, &mut again[..len])?;
    if again[..len] != first[..len] {
        return Ok(Overlap::Unknown);
    }
    read(link, address + 1, &mut again[1..len])?;
    Ok(if again[1..len] != second[1..len] {
        Overlap::Unknown
    } else if are_alike(&first[1..len], &second[1..len]) {
        Overlap::DiffersInFew
    } else {
        Overlap::DiffersInMost
    })
}

// Returns whether at least half of the bytes are the same.
fn are_alike(one: &[u8], other: &[u8]) -> bool {
    let pairs = one.iter().zip(other.iter());
    let differing = pairs.filter(|pair| pair.0 != pair.1).count();
    differing <= one.len() / 2
}
