//! The files of a run. No file is emptied that the run reads, that another run reads or writes, or
//! that takes the report.
ghost use Rattle.std.specs.Prelude.{IfOk, IsErr};

use crate::PROGRAM;
use error_line::{Why, tell};
use norm_settings::Names;
use std::fs::{File, Metadata, OpenOptions, TryLockError};
use std::os::fd::AsFd;
use std::os::unix::fs::{FileTypeExt, MetadataExt};
use std::{fs, io};

// Linux's name for the file behind standard output, whatever that is.
const STANDARD_OUTPUT: &str = "/proc/self/fd/1";

// Linux's error of a descriptor that is not open.
const EBADF: i32 = 9;

/// The file to read and the file to write, or why there is none.
pub type Opened = (io::Result<File>, io::Result<File>);

/// Opens the file to read and, where that succeeds, the file to write. A regular file is held by an
/// advisory lock as long as it is open: IN shared with other readers, OUT alone. Fails if the
/// report would be written to IN, or if the file behind standard output cannot be determined.
pub fn opened<'a>(rt: &HostRuntime, names: &'a Names) -> Result<Opened, Why<'a>>
    ensures { IfOk result (λ opened. IsErr opened.0 → IsErr opened.1) }
{
    // Must be first: if standard output is closed, the next file that is opened takes its number.
    let report = match report_file(rt) {
        Ok(report) => report,
        Err(error) => return Err(of_file(STANDARD_OUTPUT, error)),
    };
    let (input, is_report) = match read(rt, names.input.as_str(), &report) {
        Ok(found) => found,
        Err(error) => return Ok((Err(error), Err(error))),
    };
    if is_report {
        let error = io::Error::other("where the report goes");
        return Err(of_file(names.input.as_str(), error));
    }
    if is_regular(&input) && is_written(&input) {
        let error = io::Error::other("another run is writing it");
        tell(rt, PROGRAM.name, &of_file(names.input.as_str(), error));
    }
    let output = written(rt, names.output.as_str(), &input, &report);
    Ok((Ok(input), output))
}

// Returns that a call on this file failed.
fn of_file(file: &str, error: io::Error) -> Why<'_> {
    Why::Failed { file, error }
}

// Returns the file behind standard output, if that is open.
fn report_file(rt: &HostRuntime) -> io::Result<Option<Metadata>> {
    match rt.stdout().as_fd().try_clone_to_owned() {
        Ok(_) => Ok(Some(fs::metadata(rt, STANDARD_OUTPUT)?)),
        Err(error) if error.raw_os_error() == Some(EBADF) => Ok(None),
        Err(error) => Err(error),
    }
}

// Opens the file to read, and returns whether it takes the report.
fn read(rt: &HostRuntime, name: &str, report: &Option<Metadata>) -> io::Result<(File, bool)> {
    let input = File::open(rt, name)?;
    let input = behind_standard(&input)?;
    let is_report = takes_report(&input, report)?;
    Ok((input, is_report))
}

// Opens the file to write, and empties it once it is held alone; a device or a pipe is taken as it
// is.
fn written(
    rt: &HostRuntime,
    name: &str,
    input: &File,
    report: &Option<Metadata>,
) -> io::Result<File> {
    let output = OpenOptions::new().write(true).create(true).open(rt, name)?;
    let output = behind_standard(&output)?;
    if takes_report(&output, report)? {
        return Err(io::Error::other("where the report goes"));
    }
    if !is_regular(&output) {
        return Ok(output);
    }
    if are_one(input, &output)? {
        return Err(io::Error::other("the same file as IN"));
    }
    if !hold(&output) {
        return Err(io::Error::other("held by another run"));
    }
    output.set_len(0)?;
    Ok(output)
}

// Duplicates the open file to a descriptor above the standard ones: if standard output is closed,
// the report must not go into a file that took its number.
fn behind_standard(file: &File) -> io::Result<File> {
    file.try_clone()
}

// Locks the file for this program alone, and returns false if another one holds it. If the file
// system has no locks, none does.
fn hold(file: &File) -> bool {
    !matches!(file.try_lock(), Err(TryLockError::WouldBlock))
}

// Locks the file together with other readers, and returns true if another program holds it alone.
fn is_written(file: &File) -> bool {
    matches!(file.try_lock_shared(), Err(TryLockError::WouldBlock))
}

// Returns whether the two are one file by two names.
fn are_one(one: &File, other: &File) -> io::Result<bool> {
    Ok(is_same_node(&one.metadata()?, &other.metadata()?))
}

// Returns whether the file is the one that standard output writes to, where the report would
// overwrite the capture or be between its records. A terminal and `/dev/null` are character
// devices, which keep nothing that could be overwritten.
fn takes_report(file: &File, report: &Option<Metadata>) -> io::Result<bool> {
    let Some(report) = report else {
        return Ok(false);
    };
    let metadata = file.metadata()?;
    Ok(!metadata.file_type().is_char_device() && is_same_node(&metadata, report))
}

fn is_same_node(one: &Metadata, other: &Metadata) -> bool {
    one.dev() == other.dev() && one.ino() == other.ino()
}

fn is_regular(file: &File) -> bool {
    match file.metadata() {
        Ok(metadata) => metadata.is_file(),
        Err(_) => true,
    }
}
