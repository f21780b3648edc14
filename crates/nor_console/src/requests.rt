//! The request that a change makes to a session, and the addresses of the regions to which a job is limited.
ghost use Rattle.std.specs.Prelude.{◌≡◌, ◌≤◌, ℕ, IfOk, IfErr, None, OnOk, Some, length, option_map, true};
ghost use Rattle.nor_layout.specs.Included.{are_known, is_included};
ghost use Rattle.nor_layout.specs.Ranges.{contains};
ghost use Rattle.nor_layout.specs.Text.{is_region_named};
ghost use Rattle.nor_args.specs.declared.job.LayoutForm.TheVariants as LayoutForms;
ghost use Rattle.nor_args.specs.declared.reasons.Reason.TheVariants as Reasons;
ghost use Rattle.nor_args.specs.declared.words.UsageFault.TheVariants as Usage;
ghost use Rattle.nor_console.specs.Requests.{AreRangesOf, FailsToInclude, FailsToReadLayout, HasLayout, IsLayoutOf};
ghost use Rattle.nor_console.specs.Requests.{IsLayoutText, LacksLayout, LacksShown, LacksText, first_unknown};
ghost use Rattle.nor_console.specs.Requests.{request_for, what_of};
ghost use Rattle.nor_console.specs.declared.messages.Fault.TheVariants as Faults;

use crate::causes::Cause;
use crate::files::{MOST_LAYOUT_BYTES, read_file, unread_by};
use crate::layout_words::in_words;
use crate::messages::Fault;
use nor_args::{Change, LayoutForm, Reason, Regions, UsageFault, Wanted};
use nor_files::Store;
use nor_layout::{Layout, LayoutFault, Ranges, Region};
use nor_maps::{read_descriptor, read_fmap};
use nor_probe::ChipName;
use nor_session::{Request, What};
use std::alloc::Global;

/// Returns the addresses of the named regions in their layout, or `None` without regions. Returns the faults of
/// `read_layout`, and layout fault 8 with the first name that no region has.
pub fn read_included<'a, R: Store>(
    rt: &R,
    regions: Option<Regions<'a>>,
    shown: Option<&[u8]>,
) -> Result<Option<Ranges>, Fault<'a>>
    ensures ok { IfOk result (AreRangesOf ((R.state rt.now).view)
        (option_map (λ bytes. bytes.now) shown.entry) regions.entry) }
    ensures err { IfErr result (FailsToInclude ((R.state rt.now).view)
        (option_map (λ bytes. bytes.now) shown.entry) regions.entry) }
{
    let Some(regions) = regions else {
        return Ok(None);
    };
    let layout = read_layout(rt, regions, shown)?;
    match include_regions(&layout, regions.names) {
        Ok(included) => Ok(Some(included)),
        Err(name) => Err(Fault::NoRegion { name }),
    }
}

/// Reads the layout of these regions from its file or, without one, from `shown`, the bytes that the chip returned.
///
/// Returns file fault 1 if the file is missing, can't be read or has more than 16 MiB; usage fault 7 if the layout has
/// no file, and `shown` is `None` or has more than 16 MiB; a layout fault or a map fault if the layout is wrong, or
/// memory runs out while it is parsed; or error 18 if memory runs out while the file is read.
pub fn read_layout<'a, R: Store>(
    rt: &R,
    regions: Regions<'a>,
    shown: Option<&[u8]>,
) -> Result<Layout, Fault<'a>>
    ensures ok { IfOk result (IsLayoutOf ((R.state rt.now).view)
        (option_map (λ bytes. bytes.now) shown.entry) regions.entry) }
    ensures err { IfErr result (FailsToReadLayout ((R.state rt.now).view)
        (option_map (λ bytes. bytes.now) shown.entry) regions.entry) }
{
    let Some(name) = regions.layout else {
        return parse_layout(rt.alloc(), regions.form, shown_layout(shown)?);
    };
    let text = read_layout_file(rt, name)?;
    parse_layout(rt.alloc(), regions.form, &text)
}

fn read_layout_file<'a, R: Store>(rt: &R, name: &'a str) -> Result<Vec<u8>, Fault<'a>>
    ensures ok { IfOk result (λ text. IsLayoutText ((R.state rt.now).view) None (Some name.entry) text.items) }
    ensures err { IfErr result (LacksText ((R.state rt.now).view) None (Some name.entry)) }
{
    let text = read_file(rt, name, MOST_LAYOUT_BYTES + 1)?;
    if text.len() as u64 > MOST_LAYOUT_BYTES {
        return Err(unread_by(name, Cause::LongLayout));
    }
    Ok(text)
}

fn shown_layout<'b>(shown: Option<&'b [u8]>) -> Result<&'b [u8], Fault<'static>>
    ensures ok { IfOk result (λ text. (option_map (λ bytes. bytes.now) shown.entry ≡ Some text.now)
        × (length text.now ≤ 16777216)) }
    ensures err { IfErr result (λ fault. (fault ≡ Faults.Usage Usage.Layout Reasons.Unsaid)
        × LacksShown (option_map (λ bytes. bytes.now) shown.entry)) }
{
    match shown {
        Some(bytes) if bytes.len() as u64 <= MOST_LAYOUT_BYTES => Ok(bytes),
        _ => Err(Fault::Usage {
            fault: UsageFault::Layout,
            reason: Reason::Unsaid,
        }),
    }
}

// A size in bytes above that of any chip: the flash descriptor or FMAP of a board with two chips has regions of both.
const ANY_SIZE: u32 = u32::MAX;

#[tactic(auto, using(crate::proofs::Included::is_unparsed))]
fn parse_layout<'a>(alloc: Global, form: LayoutForm, text: &[u8]) -> Result<Layout, Fault<'a>>
    ensures ok { IfOk result (λ layout. HasLayout form text.now layout) }
    ensures err { IfErr result (LacksLayout form text.now) }
{
    match form {
        LayoutForm::Lines => match Layout::read(alloc, text) {
            Ok(layout) => Ok(layout),
            Err(fault) => Err(Fault::Layout(fault)),
        },
        LayoutForm::Words => parse_words(alloc, text),
        LayoutForm::Fmap => match read_fmap(alloc, text, ANY_SIZE) {
            Ok(layout) => Ok(layout),
            Err(fault) => Err(Fault::Map(fault)),
        },
        LayoutForm::Descriptor => match read_descriptor(alloc, text, ANY_SIZE) {
            Ok(layout) => Ok(layout),
            Err(fault) => Err(Fault::Map(fault)),
        },
    }
}

#[tactic(auto, using(crate::proofs::Included::is_unparsed))]
fn parse_words<'a>(alloc: Global, text: &[u8]) -> Result<Layout, Fault<'a>>
    ensures ok { IfOk result (λ layout. HasLayout LayoutForms.Words text.now layout) }
    ensures err { IfErr result (LacksLayout LayoutForms.Words text.now) }
{
    let Ok(words) = in_words(alloc, text) else {
        return Err(Fault::Layout(LayoutFault::Memory));
    };
    match Layout::read(alloc, &words) {
        Ok(layout) => Ok(layout),
        Err(fault) => Err(Fault::Layout(fault)),
    }
}

/// Returns the addresses of the named regions of `layout`, or (as the error) the first name that no region has.
#[tactic(auto, using(crate::proofs::Included::named_unknown))]
pub fn include_regions<'a>(layout: &Layout, names: &'a str) -> Result<Ranges, &'a str>
    ensures known { OnOk result (are_known layout.now names.now ≡ true) }
    ensures union { IfOk result (λ ranges. (address : ℕ)
        → contains ranges address ≡ is_included layout.now names.now address) }
    ensures unknown { IfErr result (λ name. first_unknown layout.now names.now ≡ Some name.now) }
{
    match layout.include(names) {
        Ok(ranges) => Ok(ranges),
        Err(_) => Err(first_unknown(layout.regions(), names).unwrap_or(names)),
    }
}

fn first_unknown<'a>(regions: &[Region], names: &'a str) -> Option<&'a str>
    ensures { option_map (λ name. name.now) result ≡ first_unknown regions.now names.now }
{
    names.split(',').find(|name| !is_named(regions, name))
}

fn is_named(regions: &[Region], name: &str) -> bool
    ensures { result ≡ is_region_named regions.now name.now }
{
    regions
        .iter()
        .any(|region| region.name.as_slice() == name.as_bytes())
}

/// Returns the request of `change` for a chip with the name `named` (or any) and the addresses `included` (or all).
pub fn request_for(
    change: &Change<'_>,
    named: Option<ChipName>,
    included: Option<Ranges>,
) -> Request
    ensures { result ≡ request_for change.now named included }
{
    Request {
        what: what_of(change.wanted),
        named,
        included,
        unlock: change.unlock,
        verify: change.verify,
    }
}

fn what_of(wanted: Wanted<'_>) -> What
    ensures { result ≡ what_of wanted.entry }
{
    match wanted {
        Wanted::Write { .. } => What::Write,
        Wanted::Erase => What::Erase,
        Wanted::Range { start, len } => What::WpRange { start, len },
    }
}
