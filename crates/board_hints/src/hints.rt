//! The hints: the lines that follow the line of a fault. This file has one row per fault and per error, which contains
//! the text of the hint or calls the function that prints it.

use crate::change_hints::{print_busy, print_not_stored};
use crate::chip_hints::{
    print_other_chip, print_other_name, print_other_unique_id, print_unknown_chip,
};
use crate::circumstances::Circumstances;
use crate::status_hints::{
    print_locked, print_other_status, print_protected, print_unknown_protection,
};
use board_files::{Farthest, print_hint, reason_hint, regions_of};
use nor_args::{Change, Operation, Regions, Task};
use nor_console::{Escaped, Fault, FileFault};
use nor_session::Refusal;
use std::io::{self, Write};

/// Prints the line that follows the line of an operation's fault, if there is one.
pub fn print_operation_hint<E: Write>(
    errors: &mut E,
    fault: &Fault<'_>,
    operation: &Operation<'_>,
    known: &Circumstances<'_>,
) {
    let _ = match fault {
        Fault::Layout(_) | Fault::Map(_) | Fault::NoRegion { .. } => {
            print_layout_file(errors, &operation.task)
        }
        Fault::File {
            fault: FileFault::Exists,
            name,
            ..
        } if operation.log == Some(*name) => writeln!(
            errors,
            "It exists, and is no log, so it isn't overwritten: choose a new name."
        ),
        Fault::File {
            fault: FileFault::Exists,
            ..
        } if reads(operation) => writeln!(
            errors,
            "It is a journal, which is never overwritten: choose a new name."
        ),
        Fault::Refused(refusal) => print_error_hint(errors, *refusal, operation, known),
        _ => print_file_hint(errors, fault),
    };
}

fn print_error_hint<E: Write>(
    errors: &mut E,
    refusal: Refusal,
    operation: &Operation<'_>,
    known: &Circumstances<'_>,
) -> io::Result<()> {
    let (task, status) = (&operation.task, known.replies.status);
    match refusal {
        Refusal::NoChip => writeln!(errors, "{NO_CHIP}"),
        Refusal::UnknownChip(fault) => print_unknown_chip(errors, fault, known),
        Refusal::OtherName => print_other_name(errors, operation.named, known),
        Refusal::ImageSize { .. } if regions_of(task).is_some() => writeln!(errors, "{NO_IMAGE}"),
        Refusal::RegionOutside => print_region_outside(errors, known),
        Refusal::NoProtection => print_unknown_protection(errors, status),
        Refusal::RangeNotOffered => writeln!(errors, "{NO_RANGE}"),
        Refusal::StatusLocked => print_locked(errors, status),
        Refusal::Protected { .. } if !unlocks(task) => print_protected(errors, status),
        Refusal::Vault | Refusal::Output { .. } => print_unwritten(errors, known),
        Refusal::Timeout { .. } => print_busy(errors, known.left),
        Refusal::Mismatch { .. } => print_not_stored(errors, task, known.left),
        Refusal::OtherChip => print_other_chip(errors, known),
        Refusal::StatusDiffers => print_other_status(errors, known),
        Refusal::OtherUnit => print_other_unique_id(errors, known),
        _ => print_file_hint(errors, &Fault::Refused(refusal)),
    }
}

const NO_CHIP: &str =
    "Check contacts, supply and wiring, and that cs= selects this chip. A chip in QPI mode looks the same: disconnect \
    it from power.";

const NO_IMAGE: &str = "Give an image of the whole chip. -i NAME:FILE gives the bytes of a region.";

const NO_RANGE: &str = "--wp-list lists the ranges that this chip can protect.";

fn reads(operation: &Operation<'_>) -> bool {
    matches!(operation.task, Task::Read { .. }) && !operation.is_backup
}

/// Returns true if the task is a change with `--unlock`.
pub fn unlocks(task: &Task<'_>) -> bool {
    matches!(task, Task::Change(Change { unlock: true, .. }))
}

// Prints the hint for a file or a journal that can't be used. Such a hint depends only on the fault.
fn print_file_hint<E: Write>(errors: &mut E, fault: &Fault<'_>) -> io::Result<()> {
    print_hint(errors, fault);
    Ok(())
}

fn print_layout_file<E: Write>(errors: &mut E, task: &Task<'_>) -> io::Result<()> {
    match regions_of(task) {
        Some(
            Regions {
                layout: Some(name),
                ..
            },
        ) => writeln!(errors, "The regions are in the file {}.", Escaped(name)),
        _ => Ok(()),
    }
}

fn print_region_outside<E: Write>(errors: &mut E, known: &Circumstances<'_>) -> io::Result<()> {
    match (known.farthest, known.replies.size()) {
        (Some(Farthest { name, end }), Some(size)) => {
            let name = Escaped(name);
            writeln!(
                errors,
                "The chip has {size} bytes, and the region {name} ends at 0x{end:06x}."
            )
        }
        _ => Ok(()),
    }
}

fn print_unwritten<E: Write>(errors: &mut E, known: &Circumstances<'_>) -> io::Result<()> {
    match known.unwritten {
        Some(reason) => writeln!(errors, "{}", reason_hint(reason)),
        None => Ok(()),
    }
}
