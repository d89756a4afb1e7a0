//! The program `normaudit`: it opens the files that its words name, audits them, and ends with the
//! status.
#![tactic(auto)]

mod texts;

use edge_io::{FileSource, LineOut};
use error_line::{Program, STANDARD_OUTPUT, Why, failed, last_line, tell};
use run_audit::audit;
use std::alloc::AllocError;
use std::fs::File;
use std::io;
use std::process::ExitCode;

const PROGRAM: Program = Program {
    name: "normaudit",
    help: texts::HELP,
    version: texts::VERSION,
    memory: "stop memory\n",
};

fn main(rt: HostRuntime) -> ExitCode {
    let words = match PROGRAM.words(&rt) {
        Ok(words) => words,
        Err(status) => return status,
    };
    match audit_files(&rt, &words) {
        Ok(status) => ExitCode::from(status),
        Err(_) => PROGRAM.without_memory(&rt),
    }
}

// Audits the files that the words name, and returns the status. A file that cannot be opened is a
// source whose every call fails.
fn audit_files(rt: &HostRuntime, words: &[String]) -> Result<u8, AllocError> {
    let (capture_name, report_name) = match words {
        [capture, report, _] => (capture.as_str(), report.as_str()),
        _ => ("", ""),
    };
    let mut capture = source_of(rt, capture_name)?;
    let mut report = source_of(rt, report_name)?;
    let mut out = output_of(rt)?;
    let status = audit(rt.alloc(), words, &mut *capture, &mut *report, &mut *out);
    let errors = [capture.last_error(), report.last_error(), out.last_error()];
    let stop = last_line(out.last_written());
    if let Some(why) = why(status, stop, capture_name, report_name, &errors) {
        tell(rt, PROGRAM.name, &why);
    }
    Ok(status)
}

// Returns the source of this file, on the heap. Not inlined: its frame has a buffer, and the audit
// goes on without it.
#[inline(never)]
fn source_of(rt: &HostRuntime, name: &str) -> Result<Box<FileSource>, AllocError> {
    Ok(Box::new(rt.alloc(), FileSource::opened(File::open(rt, name)))?)
}

// Returns the sink of standard output, as `source_of` returns the source.
#[inline(never)]
fn output_of(rt: &HostRuntime) -> Result<Box<LineOut>, AllocError> {
    Ok(Box::new(rt.alloc(), LineOut::over(Some(rt.stdout())))?)
}

// Returns why there is no answer at this status, from the last line of standard output and the last
// errors of capture, report and standard output.
fn why<'a>(
    status: u8,
    stop: &'a str,
    capture: &'a str,
    report: &'a str,
    errors: &[Option<io::Error>; 3],
) -> Option<Why<'a>> {
    let [of_capture, of_report, of_output] = *errors;
    match status {
        2 => Some(Why::Words { stop }),
        3 | 4 => Some(Why::Malformed {
            file: capture,
            stop,
        }),
        5 => failed(capture, of_capture).or(failed(report, of_report)),
        7 => failed(STANDARD_OUTPUT, of_output),
        8 => Some(Why::Memory),
        9 => Some(Why::Malformed { file: report, stop }),
        _ => None,
    }
}
