//! Protects the files of a run if the program was started with closed standard streams, and prints whole lines.

use std::alloc::Global;
use std::io::{LineWriter, Write};
use std::rt::Files;
use std::{fs, io};

/// A directory that always exists, and to which nothing can be written.
pub const DIRECTORY: &str = "/";

// Enough bytes for the line of a file fault with a path of 4,096 bytes, each escaped as four characters.
const LINE_BYTES: usize = 32_768;

/// Files that keep the descriptors 0, 1 and 2 in use as long as they are open.
#[derive(Drop)]
pub struct Streams<F> {
    _input: F,
    _output: F,
    _errors: F,
}

/// Opens a directory three times, so that the descriptors 0, 1 and 2 are in use. Call this before any file is opened:
/// otherwise the file could get a closed descriptor, and printed lines would overwrite its bytes. Fails if the
/// directory can't be opened.
pub fn keep_streams<R: Files>(files: &R) -> io::Result<Streams<R::File>> {
    Ok(Streams {
        _input: fs::open(files, DIRECTORY)?,
        _output: fs::open(files, DIRECTORY)?,
        _errors: fs::open(files, DIRECTORY)?,
    })
}

/// Returns a writer that passes each line of up to `LINE_BYTES` bytes to one write, so that lines of other programs
/// don't split it if the system accepts the write whole. If memory runs out, a line may take several writes.
pub fn line_buffered<W: Write + Copy + Drop>(alloc: Global, stream: W) -> LineWriter<W> {
    match LineWriter::with_capacity(alloc, LINE_BYTES, stream) {
        Ok(writer) => writer,
        Err(_) => LineWriter::with_capacity(alloc, 0, stream).unwrap(),
    }
}
