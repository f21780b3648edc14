//! Writes the image from a journal of a whole chip to a file (`--extract-image`). No programmer is used.
ghost use Rattle.std.specs.Prelude.{◌≡◌, ◌≤◌, IfOk, true};
ghost use Rattle.nor_files.specs.Files.{OthersStay, is_lawful};
ghost use Rattle.board_files.specs.Images.{IsExtracted};

use crate::early_ends::EarlyEnd;
use crate::exit_status::status_of;
use crate::file_hints::print_hint;
use crate::images::whole_image;
use crate::journals::{Description, description_of, print_description};
use crate::region_copies::write_file;
use nor_console::{Escaped, are_two_files, read_journal, unprinted};
use nor_files::Store;
use nor_jobs::journal_in;
use std::io;
use std::io::Write;

/// Extracts the image from the journal `name` to the file `image`, which is created or truncated, but not synced.
/// Prints the description of the journal and a line about the image to `output`, and returns exit status 0. If the
/// journal is invalid or lacks a sector, a file can't be used, memory runs out or printing fails, prints the fault to
/// `errors` and returns 1.
pub fn extract_image<R: Store, O: Write, E: Write>(
    files: &mut R,
    name: &str,
    image: &str,
    output: &mut O,
    errors: &mut E,
) -> u8
    ensures few { result ≤ 1 }
    ensures others { is_lawful (R.state files.old).view ≡ true
        → OthersStay image.now (R.state files.old) (R.state files.new) }
    ensures extracted { result ≡ 0 → IsExtracted (R.state files.old).view name.now
        (R.state files.new).view image.now }
{
    match extract(files, name, image) {
        Ok(description) => {
            let printed = print_extracted(output, name, image, &description);
            status_of(printed, errors)
        }
        Err(early) => {
            let _ = writeln!(errors, "{early}");
            if let EarlyEnd::Fault(fault) = &early {
                print_hint(errors, fault);
            }
            1
        }
    }
}

#[tactic(auto, using(crate::proofs::Extracted::others_after, crate::proofs::Extracted::others_same))]
fn extract<'a, R: Store>(
    files: &mut R,
    name: &'a str,
    image: &'a str,
) -> Result<Description, EarlyEnd<'a>>
    ensures others { is_lawful (R.state files.old).view ≡ true
        → OthersStay image.now (R.state files.old) (R.state files.new) }
    ensures ok { IfOk result (λ description. IsExtracted (R.state files.old).view name.now
        (R.state files.new).view image.now) }
{
    are_two_files(files, Some(name), Some(image))?;
    unprinted(files, Some(image))?;
    let bytes = read_journal(files, name)?;
    let journal = journal_in(&bytes)?;
    let content = whole_image(files.alloc(), name, &journal)?;
    write_file(files, image, &content)?;
    Ok(description_of(&journal))
}

fn print_extracted<W: Write>(
    output: &mut W,
    name: &str,
    image: &str,
    description: &Description,
) -> io::Result<()> {
    print_description(output, name, description)?;
    let size = description.size;
    writeln!(
        output,
        "Wrote the image of this chip, {size} bytes: {}",
        Escaped(image)
    )?;
    output.flush()
}
