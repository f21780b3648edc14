//! Compares the files to which names refer, with each other and with the files to which the program prints.
ghost use Rattle.std.specs.Prelude.{◌≡◌, ◌⊎◌, IfErr, IfSome};
ghost use Rattle.nor_files.specs.Disk.{IsStreamName};

use crate::folder::{folder_of, last_of};
use crate::store::Stream;
use std::fs::Metadata;
use std::io::ErrorKind;
use std::os::unix::fs::MetadataExt;
use std::rt::Files;
use std::{fs, io};

/// Returns whether both files exist and have the same device and inode, or neither exists and the names have the same
/// last part in the same existing directory. If a name can't be looked up, returns this name as the error.
pub fn is_one_file<'n, R: Files>(files: &R, one: &'n str, other: &'n str) -> Result<bool, &'n str>
    ensures { IfErr result (λ name. name.now ≡ one.now ⊎ name.now ≡ other.now) }
{
    match (look(files, one, one)?, look(files, other, other)?) {
        (Some(one), Some(other)) => Ok(is_same(&one, &other)),
        (None, None) => will_be_one_file(files, one, other),
        _ => Ok(false),
    }
}

pub fn look_up_error<R: Files>(files: &R, name: &str) -> Option<io::Error> {
    let missing = match fs::metadata(files, name) {
        Ok(_) => return None,
        Err(error) => error,
    };
    if !is_missing(missing.kind()) {
        return Some(missing);
    }
    match fs::metadata(files, folder_of(name)) {
        Err(error) if !is_missing(error.kind()) => Some(error),
        _ => None,
    }
}

pub fn is_stream<'n, R: Files>(files: &R, stream: Stream, name: &'n str) -> Result<bool, &'n str>
    ensures { IfErr result (λ unseen. unseen.now ≡ name.now) }
{
    let printed = match look_at(files, stream) {
        Some(metadata) if metadata.is_file() => metadata,
        _ => return Ok(false),
    };
    match look(files, name, name)? {
        Some(file) => Ok(is_same(&file, &printed)),
        None => Ok(false),
    }
}

/// Returns `/dev/fd/1` if standard output can't be looked up, otherwise `/dev/fd/2` if standard error can't, or `None`.
pub fn unseen_stream<R: Files>(files: &R) -> Option<&'static str>
    ensures { IfSome result (λ name. IsStreamName name.now) }
{
    if look_at(files, Stream::Output).is_none() {
        return Some("/dev/fd/1");
    }
    if look_at(files, Stream::Errors).is_none() {
        return Some("/dev/fd/2");
    }
    None
}

// Returns the metadata of a standard stream. Its name in /proc works only if the mounted /proc shows this process.
fn look_at<R: Files>(files: &R, stream: Stream) -> Option<Metadata> {
    let (first, second) = match stream {
        Stream::Output => ("/proc/self/fd/1", "/dev/fd/1"),
        Stream::Errors => ("/proc/self/fd/2", "/dev/fd/2"),
    };
    match fs::metadata(files, first) {
        Ok(metadata) => Some(metadata),
        Err(_) => fs::metadata(files, second).ok(),
    }
}

pub fn is_same(one: &Metadata, other: &Metadata) -> bool {
    one.dev() == other.dev() && one.ino() == other.ino()
}

fn will_be_one_file<'n, R: Files>(files: &R, one: &'n str, other: &'n str) -> Result<bool, &'n str>
    ensures { IfErr result (λ name. name.now ≡ one.now ⊎ name.now ≡ other.now) }
{
    if last_of(one) != last_of(other) {
        return Ok(false);
    }
    match (
        look(files, folder_of(one), one)?,
        look(files, folder_of(other), other)?,
    ) {
        (Some(one), Some(other)) => Ok(is_same(&one, &other)),
        _ => Ok(false),
    }
}

fn look<'n, R: Files>(files: &R, path: &str, name: &'n str) -> Result<Option<Metadata>, &'n str>
    ensures { IfErr result (λ unseen. unseen.now ≡ name.now) }
{
    match fs::metadata(files, path) {
        Ok(metadata) => Ok(Some(metadata)),
        Err(error) if is_missing(error.kind()) => Ok(None),
        Err(_) => Err(name),
    }
}

fn is_missing(kind: ErrorKind) -> bool {
    kind == ErrorKind::NotFound || kind == ErrorKind::NotADirectory
}
