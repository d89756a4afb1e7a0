//! The program `norm`: it opens the files that its words name, normalizes the capture, and ends
//! with the status.
#![tactic(auto)]

mod files;

use bridge_run::run;
use edge_io::{FileSink, FileSource, LineOut};
use error_line::{NORM_HELP, NORM_VERSION, Program, STANDARD_OUTPUT, Why, failed, last_line, tell};
use files::Opened;
use norm_settings::{Command, Names, WordFault, read_words};
use std::alloc::AllocError;
use std::fs::File;
use std::io;
use std::process::ExitCode;

const PROGRAM: Program = Program {
    name: "norm",
    help: NORM_HELP,
    version: NORM_VERSION,
    memory: "stop memory 0\n",
};

fn main(rt: HostRuntime) -> ExitCode {
    let words = match PROGRAM.words(&rt) {
        Ok(words) => words,
        Err(status) => return status,
    };
    match read_words(rt.alloc(), &words) {
        Ok(Command::Run { names, settings: _ }) => run_words(&rt, &words, Some(&names)),
        Ok(Command::Load { seed: _, count: _ }) => run_words(&rt, &words, None),
        Err(WordFault::NoMemory) => PROGRAM.without_memory(&rt),
        Err(_) => run_words(&rt, &words, None),
    }
}

// Runs what the words ask for, and returns the status. They name the files if they ask for a
// capture.
fn run_words(rt: &HostRuntime, words: &[String], names: Option<&Names>) -> ExitCode {
    let opened = match names {
        Some(names) => files::opened(rt, names),
        None => {
            let missing = io::Error::from(io::ErrorKind::NotFound);
            Ok((Err(missing), Err(missing)))
        }
    };
    let ended = match opened {
        Ok(opened) => run_files(rt, words, names, opened),
        Err(why) => {
            tell(rt, PROGRAM.name, &why);
            return ExitCode::from(7);
        }
    };
    match ended {
        Ok(status) => ExitCode::from(status),
        Err(_) => PROGRAM.without_memory(rt),
    }
}

// Runs what the words ask for over these files, and returns the status.
fn run_files(
    rt: &HostRuntime,
    words: &[String],
    names: Option<&Names>,
    (input, output): Opened,
) -> Result<u8, AllocError> {
    let mut source = source_of(rt, input)?;
    let mut capture = capture_of(rt, output)?;
    let mut report = report_of(rt)?;
    let status = run(rt.alloc(), words, &mut *source, &mut *capture, &mut *report);
    let (input_name, output_name) = match names {
        Some(names) => (names.input.as_str(), names.output.as_str()),
        None => ("", ""),
    };
    let errors = [
        source.last_error(),
        capture.last_error(),
        report.last_error(),
    ];
    let stop = last_line(report.last_written());
    if let Some(why) = why(status, stop, input_name, output_name, &errors) {
        tell(rt, PROGRAM.name, &why);
    }
    Ok(status)
}

// Returns the source of this file, on the heap. Not inlined: its frame has two buffers, and the run
// goes on without it.
#[inline(never)]
fn source_of(rt: &HostRuntime, input: io::Result<File>) -> Result<Box<FileSource>, AllocError> {
    Ok(Box::new(rt.alloc(), FileSource::opened(input))?)
}

// Returns the sink of this file, as `source_of` returns the source.
#[inline(never)]
fn capture_of(rt: &HostRuntime, output: io::Result<File>) -> Result<Box<FileSink>, AllocError> {
    Ok(Box::new(rt.alloc(), FileSink::opened(output))?)
}

// Returns the sink of standard output, as `source_of` returns the source.
#[inline(never)]
fn report_of(rt: &HostRuntime) -> Result<Box<LineOut>, AllocError> {
    Ok(Box::new(rt.alloc(), LineOut::over(Some(rt.stdout())))?)
}

// Returns why the run failed, from the last line of the report and the last errors of IN, of OUT
// and of the report.
fn why<'a>(
    status: u8,
    stop: &'a str,
    input: &'a str,
    output: &'a str,
    errors: &[Option<io::Error>; 3],
) -> Option<Why<'a>> {
    let [of_input, of_output, of_report] = *errors;
    match status {
        2 => Some(Why::Words { stop }),
        3 | 4 => Some(Why::Malformed { file: input, stop }),
        5 => failed(input, of_input),
        6 => failed(output, of_output),
        7 => failed(STANDARD_OUTPUT, of_report),
        8 => Some(Why::Memory),
        _ => None,
    }
}
