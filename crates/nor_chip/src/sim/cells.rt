//! Reads, programs and fills byte slices, such as the contents of a simulated chip.
ghost use Rattle.std.specs.Prelude.{◌≡◌, ℕ, ◌+◌, ◌*◌, ◌/◌, ◌%◌, ◌<◌, ◌≤◌, length, slice_index, slice_index_or, bit_and};
ghost use Rattle.nor_chip.specs.Cells.{HasPageProgrammed, IsFilled};

use nor_geometry::PAGE_LEN;

fn clear_bits(bytes: &mut [u8], from: usize, sent: &[u8])
    requires { from + length sent.now ≤ length bytes.old }
    ensures inside { (i : ℕ) → i < length sent.now
        → slice_index bytes.new (from + i) ≡ bit_and (slice_index bytes.old (from + i)) (slice_index sent.now i) }
    ensures below { (a : ℕ) → a < from → slice_index bytes.new a ≡ slice_index bytes.old a }
    ensures above { (a : ℕ) → from + length sent.now ≤ a → slice_index bytes.new a ≡ slice_index bytes.old a }
{
    for (i, byte) in sent.iter().enumerate() {
        bytes[from + i] &= *byte;
    }
}

// Programs `sent` from `at` on, wrapping around in the page of `at`. Only the last 256 bytes of `sent` have an effect.
pub(crate) fn program(bytes: &mut [u8], at: usize, sent: &[u8])
    requires { at / 256 * 256 + 256 ≤ length bytes.old }
    ensures { HasPageProgrammed at sent.now bytes.old bytes.new }
{
    let page = at / PAGE_LEN * PAGE_LEN;
    let skipped = sent.len().saturating_sub(PAGE_LEN);
    let start = (at + skipped) % PAGE_LEN;
    let data = &sent[skipped..];
    let (front, back) = data.split_at(data.len().min(PAGE_LEN - start));
    clear_bits(bytes, page + start, front);
    clear_bits(bytes, page, back);
}

pub(crate) fn fill(bytes: &mut [u8], start: usize, len: usize, byte: u8)
    requires { start + len ≤ length bytes.old }
    ensures { IsFilled byte start len bytes.old bytes.new }
{
    bytes[start..start + len].fill(byte);
}

pub(crate) fn read_round(bytes: &[u8], at: usize, reply: &mut [u8])
    requires { at < length bytes.now }
    ensures { (i : ℕ) → i < length reply.new
        → slice_index reply.new i ≡ slice_index bytes.now ((at + i) % length bytes.now) }
{
    let mut from = at;
    let mut done = 0;
    while done < reply.len() {
        let count = (bytes.len() - from).min(reply.len() - done);
        reply[done..done + count].copy_from_slice(&bytes[from..from + count]);
        done += count;
        from = 0;
    }
}

pub(crate) fn read_padded(bytes: &[u8], at: usize, reply: &mut [u8])
    ensures { (i : ℕ) → i < length reply.new → slice_index reply.new i ≡ slice_index_or bytes.now (at + i) 255 }
{
    let rest = &bytes[at.min(bytes.len())..];
    let count = rest.len().min(reply.len());
    reply[..count].copy_from_slice(&rest[..count]);
    reply[count..].fill(0xFF);
}
