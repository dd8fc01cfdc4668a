//! Files that others read while a program runs.

use crate::faults::WriteFault;
use crate::writing::close_line;
use std::fs::{self, OpenOptions};
use std::io::{self, ErrorKind, Read, Seek, SeekFrom, Write};
use std::path::AsPath;
use std::rt::Files;

/// Puts bytes in the place of a file, or makes it. They are written to a file beside it, `PATH.tmp`, which is then moved
/// there: so who reads sees the old file or the new one whole. After a failure the old file stays, and the one beside it
/// is removed where that can be done. A link is replaced, not what it leads to. One program writes a path at a time, and
/// nothing waits until the bytes are on the disk.
pub fn replace<R: Files + Alloc, P: AsPath>(
    rt: &R,
    path: P,
    bytes: &[u8],
) -> Result<(), WriteFault> {
    let path = path.path_text();
    let beside = format!(in rt.alloc(); "{path}.tmp")?;
    let beside = beside.as_str();
    let file = fs::create(rt, beside)?;
    let moved = fill(file, bytes).and_then(|()| fs::rename(rt, beside, path));
    if moved.is_err() {
        let _ = fs::remove_file(rt, beside);
    }
    Ok(moved?)
}

/// Writes bytes to a file and closes it.
fn fill<F: Write + Drop>(file: F, bytes: &[u8]) -> io::Result<()> {
    let mut file = file;
    file.write_all(bytes)
}

/// Puts a line behind a file, or makes the file. A line break is put behind a line that ends in none, and before it if
/// the file ends in the middle of a line, as after a write that failed. Takes no memory.
pub fn append<R: Files, P: AsPath>(rt: &R, path: P, line: &[u8]) -> Result<(), WriteFault> {
    let path = path.path_text();
    let mut file = open_end(rt, path)?;
    close_line(&mut file, ends_in_mid_line(rt, path).unwrap_or(false))?;
    file.write_all(line)?;
    Ok(close_line(&mut file, !line.ends_with(b"\n"))?)
}

/// Opens a file to write behind what it has, or makes it.
pub(crate) fn open_end<R: Files>(rt: &R, path: &str) -> io::Result<R::File> {
    OpenOptions::new().append(true).create(true).open(rt, path)
}

/// Whether a file ends in the middle of a line. An error if that can't be seen, as of a pipe.
pub(crate) fn ends_in_mid_line<R: Files>(rt: &R, path: &str) -> io::Result<bool> {
    let about = fs::metadata(rt, path)?;
    if !about.is_file() {
        return Err(io::Error::from(ErrorKind::NotSeekable));
    }
    if about.len() == 0 {
        return Ok(false);
    }
    let mut file = fs::open(rt, path)?;
    file.seek(SeekFrom::End(-1))?;
    let mut last = [0u8; 1];
    file.read_exact(&mut last)?;
    Ok(last[0] != b'\n')
}
