//! A run over files writes what one over octets in memory writes.
use super::WORDS;
use crate::runs::{capture_file, line};
use bridge_run::run;
use edge_io::{FileSink, FileSource, MemSink};
use std::fs::File;
use std::test::Fail;
use std::{env, fs, process};

// Returns a name of a file of this test in the folder for temporary files.
fn name_of(rt: &HostRuntime, end: &str) -> Result<String, Fail> {
    let name = format!(in rt.alloc(); "norm_{}_{end}", process::id(rt.process()))?;
    Ok(
        env::temp_dir(rt)?
            .join(rt.alloc(), name.as_str())?
            .into_string(),
    )
}

// Normalizes one file into the other, and returns the status.
fn normalized(rt: &HostRuntime, input: &str, output: &str) -> Result<u8, Fail> {
    let words = line(rt.alloc(), WORDS)?;
    let mut report = MemSink::new(rt.alloc(), 100, Vec::new(rt.alloc()))?;
    Ok(run(
        rt.alloc(),
        &words,
        &mut FileSource::opened(File::open(rt, input)),
        &mut FileSink::opened(File::create(rt, output)),
        &mut report,
    ))
}

// The capture of one UDP message that passes is written as it was read.
#[test]
fn the_capture_written_is_the_one_read(rt: HostRuntime) -> Result<(), Fail> {
    let sample = capture_file(rt.alloc(), "", 1, "")?;
    let (input, output) = (name_of(&rt, "in")?, name_of(&rt, "out")?);
    fs::write(&rt, input.as_str(), sample.as_slice())?;
    let status = normalized(&rt, input.as_str(), output.as_str())?;
    let written = fs::read(&rt, output.as_str())?;
    fs::remove_file(&rt, input.as_str())?;
    fs::remove_file(&rt, output.as_str())?;
    assert_eq!(rt; status, 0);
    assert!(rt; written.as_slice() == sample.as_slice());
    Ok(())
}
