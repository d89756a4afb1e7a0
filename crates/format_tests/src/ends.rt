ghost use Rattle.std.specs.Prelude.{◌≡◌, ◌<◌, ◌≤◌, [], ◌++◌, length, OnOk};
ghost use Rattle.std.specs.Io.KnownBytes.{Appends};
ghost use Rattle.edge_io.specs.OutsideEnds.{octets_held_of};

use edge_io::{
    BufferedSink, BufferedSource, Failed, FileSink, FileSource, LineOut, MAX_FRAME, MemSink,
    MemSource, NoMemory, Outbox, Sink, Source, read_full,
};
use std::alloc::{AllocError, Global};
use std::fs::File;
use std::io::{ErrorKind, Read, Write};
use std::path::Path;
use std::test::Fail;
use std::{env, fs, io, process};

// Puts the octets in chunks of `size`, and flushes the sink.
fn put_in_pieces<K: Sink>(sink: &mut K, octets: &[u8], size: usize) -> Result<(), Failed>
    requires { 0 < size }
{
    for piece in octets.chunks(size) {
        sink.put(piece)?;
    }
    sink.flush()
}

// Returns 76,500 octets, more than the 65,536 of a buffer.
fn many_octets(alloc: Global) -> Result<Vec<u8>, AllocError> {
    let mut octets = Vec::new(alloc);
    for octet in 0..u8::MAX {
        octets.extend_from_slice(&[octet; 300])?;
    }
    Ok(octets)
}

// Writes the octets to a new file, and returns whether no call fails.
fn is_file_written(rt: &HostRuntime, path: Path<'_>, octets: &[u8]) -> io::Result<bool> {
    let mut sink = FileSink::over(Some(File::create(rt, path)?));
    Ok(put_in_pieces(&mut sink, octets, 116).is_ok())
}

// Reads the file, and returns whether it has exactly this number of octets.
fn is_file_read(rt: &HostRuntime, path: Path<'_>, octets: &mut [u8]) -> io::Result<bool> {
    let mut source = FileSource::over(Some(File::open(rt, path)?));
    Ok(read_full(&mut source, octets).is_ok() && source.fetch(&mut [0]) == Ok(0))
}

fn is_file_kept(rt: &HostRuntime, path: Path<'_>, given: &[u8]) -> Result<bool, Fail> {
    let mut read = vec![in rt.alloc(); 0u8; given.len()]?;
    let written = is_file_written(rt, path, given)?;
    let whole = is_file_read(rt, path, &mut read)?;
    fs::remove_file(rt, path)?;
    Ok(written && whole && read.as_slice() == given)
}

fn is_kept(rt: &HostRuntime) -> Result<bool, Fail> {
    let given = many_octets(rt.alloc())?;
    let name = format!(in rt.alloc(); "edge_io_{}", process::id(rt.process()))?;
    let path = env::temp_dir(rt)?.join(rt.alloc(), name.as_str())?;
    is_file_kept(rt, path.as_path(), &given)
}

#[test]
fn a_file_has_what_its_sink_was_given(rt: HostRuntime) -> Result<(), Fail> {
    assert!(rt; is_kept(&rt)?);
    Ok(())
}

// Returns whether the sink takes a line and has no error, and whether it has the line.
fn takes_line(out: &mut LineOut) -> (bool, bool, bool) {
    let taken = put_in_pieces(out, b"a line\n", 4).is_ok();
    (
        taken,
        out.last_error().is_none(),
        out.last_written() == b"a line\n".as_slice(),
    )
}

// Flushes a sink without a writer. Returns the result, and the number of calls that failed.
fn flushes_none() -> (Result<(), Failed>, u64) {
    let mut none = LineOut::over(None);
    (none.flush(), none.faults())
}

#[test]
fn standard_output_takes_lines(rt: HostRuntime) {
    let mut out = LineOut::over(Some(rt.stdout()));
    assert_eq!(rt; takes_line(&mut out), (true, true, true));
    assert_eq!(rt; flushes_none(), (Err(Failed), 1));
}

// A reader and writer; a signal interrupts every second call. The other calls read one octet, or
// write at most `takes`.
#[derive(Drop)]
struct Interrupted {
    calls: u8,
    takes: usize,
}

impl Interrupted {
    fn next_call(&mut self) -> io::Result<()> {
        self.calls = self.calls.wrapping_add(1);
        if self.calls % 2 == 1 {
            return Err(io::Error::from(ErrorKind::Interrupted));
        }
        Ok(())
    }
}

impl Read for Interrupted {
    fn read(&mut self, buf: &mut [u8]) -> io::Result<usize> {
        self.next_call()?;
        Ok(buf.len().min(1))
    }
}

impl Write for Interrupted {
    fn write(&mut self, buf: &[u8]) -> io::Result<usize> {
        self.next_call()?;
        Ok(buf.len().min(self.takes))
    }

    fn flush(&mut self) -> io::Result<()> {
        Ok(())
    }
}

fn is_kind(error: Option<io::Error>, kind: ErrorKind) -> bool {
    match error {
        Some(error) => error.kind() == kind,
        None => false,
    }
}

// Returns the result of a read of three octets whose first call is interrupted.
fn interrupted_read() -> Result<usize, Failed> {
    let mut source = BufferedSource::over(Some(Interrupted { calls: 0, takes: 0 }));
    source.fetch(&mut [0; 3])
}

// Writes three octets, at most `takes` per call. Returns whether that succeeds, and whether the
// error is `WriteZero`.
fn interrupted_write(takes: usize) -> (bool, bool) {
    let mut sink = BufferedSink::over(Some(Interrupted { calls: 0, takes }));
    let taken = put_in_pieces(&mut sink, b"abc", 3).is_ok();
    (taken, is_kind(sink.last_error(), ErrorKind::WriteZero))
}

#[test]
fn an_interrupted_call_is_repeated(rt: HostRuntime) {
    assert_eq!(rt; interrupted_read(), Ok(1));
    assert_eq!(rt; interrupted_write(1), (true, false));
    // A write that takes no octet is an error.
    assert_eq!(rt; interrupted_write(0), (false, true));
}

// Puts two pieces, and flushes the sink. That the writer has both follows from the clauses of `put`
// and `flush`.
fn put_both<W: Write + Drop>(
    sink: &mut BufferedSink<W>,
    first: &[u8],
    second: &[u8],
) -> Result<(), Failed>
    ensures { OnOk result (Appends (octets_held_of sink.old) sink.new.written (first.now ++ second.now)) }
{
    sink.put(first)?;
    sink.put(second)?;
    sink.flush()
}

// Puts the octets into a sink over a vector, in two pieces: 1,000 octets and the others. Returns
// whether the vector then has them all.
fn is_kept_in_memory(alloc: Global, octets: &[u8]) -> bool
    requires { 1000 ≤ length octets.now }
{
    let mut held = Vec::new(alloc);
    let mut sink = BufferedSink::over(Some(&mut held));
    let put = put_both(&mut sink, &octets[..1_000], &octets[1_000..]).is_ok();
    drop(sink);
    put && held.as_slice() == octets
}

#[test]
fn a_writer_in_memory_has_what_its_sink_was_given(rt: HostRuntime) -> Result<(), Fail> {
    let octets = many_octets(rt.alloc())?;
    assert!(rt; octets.len() >= 1_000 && is_kept_in_memory(rt.alloc(), &octets));
    Ok(())
}

// Reads the octets, more than a buffer has, from a source over them in memory, in two pieces: 1,000
// octets and the others. Returns whether they are all read, and nothing else.
fn is_read_from_memory(octets: &[u8], read: &mut [u8]) -> bool
    requires { 1000 ≤ length read.now }
{
    let mut source = BufferedSource::over(Some(octets));
    let first = read_full(&mut source, &mut read[..1_000]).is_ok();
    let others = read_full(&mut source, &mut read[1_000..]).is_ok();
    first && others && source.fetch(&mut [0]) == Ok(0) && *read == *octets
}

#[test]
fn a_source_gives_what_a_reader_in_memory_has(rt: HostRuntime) -> Result<(), Fail> {
    let octets = many_octets(rt.alloc())?;
    let mut read = vec![in rt.alloc(); 0u8; octets.len()]?;
    assert!(rt; read.len() >= 1_000 && is_read_from_memory(&octets, &mut read));
    Ok(())
}

// Reads from a missing file. Returns whether there was no error before, whether the read fails, and
// whether the error is `NotFound`.
fn fails_to_read(source: &mut FileSource) -> (bool, bool, bool) {
    let before = source.last_error().is_none();
    let failed = source.fetch(&mut [0]) == Err(Failed);
    (
        before,
        failed,
        is_kind(source.last_error(), ErrorKind::NotFound),
    )
}

fn fails_to_write(sink: &mut FileSink) -> (bool, bool) {
    let failed = sink.put(b"a") == Err(Failed);
    (failed, is_kind(sink.last_error(), ErrorKind::NotFound))
}

#[test]
fn a_call_fails_by_the_error_of_its_file(rt: HostRuntime) {
    let mut source = FileSource::opened(File::open(&rt, "no/such/file"));
    assert_eq!(rt; fails_to_read(&mut source), (true, true, true));
    let mut sink = FileSink::opened(File::create(&rt, "no/such/file"));
    assert_eq!(rt; fails_to_write(&mut sink), (true, true));
}

// The results of a read that fails and of the next one, and the octets that this one reads.
type Reads = (Result<usize, Failed>, Result<usize, Failed>, [u8; 6]);

fn failing_reads(alloc: Global) -> Result<Reads, AllocError> {
    let octets = Vec::from_slice(alloc, b"abcdefghij")?;
    let mut source = MemSource::new(octets, 4, vec![in alloc; 1]?);
    let mut buf = [0; 6];
    let first = source.fetch(&mut buf);
    Ok((first, read_full(&mut source, &mut buf), buf))
}

// Returns the results of puts whose second fails, and of one past the sink's room, and whether the
// sink then holds `abcde`.
fn failing_puts(sink: &mut MemSink) -> (Result<(), Failed>, Result<(), Failed>, bool) {
    let first = put_in_pieces(sink, b"abcdefgh", 3);
    let last = sink.put(b"def");
    (first, last, sink.held() == b"abcde".as_slice())
}

fn failing_sink(alloc: Global) -> Result<(Result<(), Failed>, Result<(), Failed>, bool), Fail> {
    let mut sink = MemSink::new(alloc, 5, vec![in alloc; 2]?)?;
    Ok(failing_puts(&mut sink))
}

#[test]
fn memory_fails_where_it_is_told_to(rt: HostRuntime) -> Result<(), Fail> {
    assert_eq!(rt;
        failing_reads(rt.alloc())?,
        (Err(Failed), Ok(6), *b"abcdef")
    );
    assert_eq!(rt; failing_sink(rt.alloc())?, (Err(Failed), Err(Failed), true));
    Ok(())
}

// Returns whether an outbox holds two frames, the first of the greatest length, and another one
// after it was cleared.
fn holds_frames(outbox: &mut Outbox) -> bool
    requires { outbox.old ≡ [] }
{
    let before = outbox.frames();
    outbox.begin();
    outbox.append(&[7; MAX_FRAME]);
    outbox.begin();
    outbox.append(b"ab");
    outbox.append(b"cd");
    if (before, outbox.frames()) != (0, 2) || outbox.frame(0).len() != MAX_FRAME {
        return false;
    }
    let second = outbox.frame(1) == b"abcd".as_slice();
    outbox.clear();
    outbox.begin();
    outbox.append(b"e");
    second && outbox.frames() == 1 && outbox.frame(0) == b"e".as_slice()
}

#[test]
fn an_outbox_has_the_frames_of_one_record(rt: HostRuntime) -> Result<(), NoMemory> {
    let mut outbox = Outbox::open(rt.alloc())?;
    assert!(rt; holds_frames(&mut outbox));
    Ok(())
}
