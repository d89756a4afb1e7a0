//! The program `normview`: it opens the files that its words name, views the run that wrote them,
//! and ends with the status.
#![tactic(auto)]

mod texts;

use edge_io::{FileSource, LineOut};
use error_line::{Program, STANDARD_OUTPUT, Why, failed, last_line, tell};
use run_view::{Printer, view};
use std::alloc::AllocError;
use std::fs::File;
use std::io;
use std::process::ExitCode;

const PROGRAM: Program = Program {
    name: "normview",
    help: texts::HELP,
    version: texts::VERSION,
    memory: "stop memory\n",
};

fn main(rt: HostRuntime) -> ExitCode {
    let words = match PROGRAM.words(&rt) {
        Ok(words) => words,
        Err(status) => return status,
    };
    match view_files(&rt, &words) {
        Ok(status) => ExitCode::from(status),
        Err(_) => PROGRAM.without_memory(&rt),
    }
}

// Views the run whose files the last three words name, and returns the status. A file that cannot
// be opened is a source whose every call fails.
fn view_files(rt: &HostRuntime, words: &[String]) -> Result<u8, AllocError> {
    let (input_name, output_name, report_name) = match words {
        [.., input, output, report] => (input.as_str(), output.as_str(), report.as_str()),
        _ => ("", "", ""),
    };
    let mut input = source_of(rt, input_name)?;
    let mut output = source_of(rt, output_name)?;
    let mut report = source_of(rt, report_name)?;
    let mut out = printer_of(rt)?;
    let status = view(
        rt.alloc(),
        words,
        &mut *input,
        &mut *output,
        &mut *report,
        &mut *out,
    );
    let errors = [
        input.last_error(),
        output.last_error(),
        report.last_error(),
        out.sink().last_error(),
    ];
    let stop = words_of(last_line(out.sink().last_written()));
    if let Some(why) = why(status, stop, input_name, output_name, report_name, &errors) {
        tell(rt, PROGRAM.name, &why);
    }
    Ok(status)
}

// Returns the source of this file, on the heap. Not inlined: its frame has a buffer, and the view
// goes on without it.
#[inline(never)]
fn source_of(rt: &HostRuntime, name: &str) -> Result<Box<FileSource>, AllocError> {
    Ok(Box::new(rt.alloc(), FileSource::opened(File::open(rt, name)))?)
}

// Returns the printer to standard output, as `source_of` returns the source.
#[inline(never)]
fn printer_of(rt: &HostRuntime) -> Result<Box<Printer<LineOut>>, AllocError> {
    let out = LineOut::over(Some(rt.stdout()));
    Ok(Box::new(rt.alloc(), Printer::over(rt.alloc(), out))?)
}

// Returns why there is no answer at this status, from the last line of standard output and the last
// errors of the three files and of standard output.
fn why<'a>(
    status: u8,
    stop: &'a str,
    input: &'a str,
    output: &'a str,
    report: &'a str,
    errors: &[Option<io::Error>; 4],
) -> Option<Why<'a>> {
    let [of_input, of_output, of_report, of_print] = *errors;
    match status {
        2 => Some(Why::Words { stop }),
        3 | 4 if stop.starts_with("stop out ") => Some(Why::Malformed { file: output, stop }),
        3 | 4 => Some(Why::Malformed { file: input, stop }),
        5 => failed(input, of_input)
            .or(failed(output, of_output))
            .or(failed(report, of_report)),
        7 => failed(STANDARD_OUTPUT, of_print),
        8 => Some(Why::Memory),
        9 => Some(Why::Malformed { file: report, stop }),
        _ => None,
    }
}

// Returns the words of a stop, which are in an object if JSON was asked for.
fn words_of(line: &str) -> &str {
    match line.split_once("\"reason\":\"") {
        Some((_, reason)) => reason.strip_suffix("\"}").unwrap_or(reason),
        None => line,
    }
}
