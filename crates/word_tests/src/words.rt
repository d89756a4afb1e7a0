//! Command lines that are read, and command lines that are refused by their number.
use arrayvec::ArrayVec;
use norm_settings::{Command, Settings, WordFault, read_words};
use std::alloc::{AllocError, Global};
use std::test::Fail;
use wire_base::{Addr, Prefix};

fn line(alloc: Global, words: &[&str]) -> Result<Vec<String>, AllocError> {
    let mut line = Vec::new(alloc);
    for word in words {
        line.push(String::from_str(alloc, word)?)?;
    }
    Ok(line)
}

// Reads `run`, the options, and then two names and a prefix.
fn read_options(alloc: Global, options: &[&str]) -> Result<Result<Command, WordFault>, AllocError> {
    let mut line = Vec::new(alloc);
    line.push(String::from_str(alloc, "run")?)?;
    for word in options {
        line.push(String::from_str(alloc, word)?)?;
    }
    for word in ["a", "b", "10.0.0.0/8"] {
        line.push(String::from_str(alloc, word)?)?;
    }
    Ok(read_words(alloc, line.as_slice()))
}

fn settings_asked(alloc: Global, options: &[&str]) -> Result<Settings, Fail> {
    let command = read_options(alloc, options)??;
    let Command::Run { names, settings } = command else {
        return Err(Fail::new("a load"));
    };
    drop(names);
    Ok(settings)
}

#[test]
fn words_are_refused_by_number(rt: HostRuntime) -> Result<(), Fail> {
    let rows: [(&[&str], u8); 24] = [
        (&[], 1),
        (&["run"], 1),
        (&["run", "a"], 1),
        (&["run", "a", "b"], 1),
        (&["walk", "a", "b", "10.0.0.0/8"], 1),
        (&["run", "", "b", "10.0.0.0/8"], 1),
        (&["run", "a", "b", ""], 1),
        (&["run", "a", "b", "10.0.0.0/8", ""], 1),
        (&["run", "-a", "b", "10.0.0.0/8"], 1),
        (&["run", "a", "-", "10.0.0.0/8"], 1),
        (&["run", "a", "b", "-10.0.0.0/8"], 1),
        (&["run", "a", "b", "10.0.0.0/8", "--offload"], 1),
        (&["run", "a", "--hops", "5", "b", "10.0.0.0/8"], 1),
        (&["run", "a", "a", "--", "10.0.0.0/8"], 1),
        (&["run", "a", "a", "10.0.0.0/8"], 5),
        (&["run", "a", "a", "10.0.0/8"], 5),
        (&["run", "a", "a", "-10.0.0.0/8"], 1),
        (&["run", "a", "a", ""], 1),
        (&["run", "a", "b", "10.0.0/8"], 2),
        (&["run", "a", "b", "256.0.0.0/8"], 2),
        (&["run", "a", "b", "10.0.0.0/008"], 2),
        (&["run", "a", "b", "10.0.0.0/33"], 2),
        (&["run", "--offload", "a", "a", "10.0.0/8"], 5),
        (&["run", "--offload", "a", "b", "10.0.0/8"], 2),
    ];
    for (words, number) in rows {
        let line = line(rt.alloc(), words)?;
        let fault = read_words(rt.alloc(), line.as_slice()).err();
        assert_eq!(rt;
            fault.map(|fault| fault.number()),
            Some(number),
            "{words:?}"
        );
    }
    Ok(())
}

#[test]
fn options_are_refused(rt: HostRuntime) -> Result<(), Fail> {
    let rows: [&[&str]; 32] = [
        &["--hops", "5", "--hops=6"],
        &["--hops", "255"],
        &["--hops=255"],
        &["--hops"],
        &["--hops="],
        &["--hops", "-1"],
        &["--hops=+1"],
        &["--hops", "5x"],
        &["--flows", "0"],
        &["--flows", "65537"],
        &["--frag-cells", "255"],
        &["--seed", "18446744073709551616"],
        &["--seed", "000000000000000000001"],
        &["--offload=true"],
        &["--offload", "--offload"],
        &["--off"],
        &["--hop", "5"],
        &["-h"],
        &["--help"],
        &["--"],
        &["--=5"],
        &["--quota", "0"],
        &["--quota=262145"],
        &["--mtu=575"],
        &["--mtu", "65536"],
        &["--inside"],
        &["--inside="],
        &["--inside", "-a"],
        &["--inside=a", "--inside=b"],
        &["--both=true"],
        &["--both", "--inside=a"],
        &["--mtu=576", "--both"],
    ];
    for options in rows {
        let fault = read_options(rt.alloc(), options)?.err();
        assert_eq!(rt; fault, Some(WordFault::Refused), "{options:?}");
    }
    Ok(())
}

#[test]
fn options_are_read(rt: HostRuntime) -> Result<(), Fail> {
    let settings = settings_asked(
        rt.alloc(),
        &[
            "--hops=0",
            "--flows",
            "65536",
            "--cells=1",
            "--frags",
            "00000000000000004096",
            "--frag-cells=256",
            "--idle",
            "1000000",
            "--frag-time=3600",
            "--seed",
            "18446744073709551615",
            "--quota=262144",
            "--mtu",
            "576",
            "--offload",
            "--inside=in",
        ],
    )?;
    let Some(inside) = &settings.inside else {
        return Err(Fail::new("no name"));
    };
    assert_eq!(rt; inside.as_slice(), b"in".as_slice());
    assert_eq!(rt;
        (settings.hops, settings.flows, settings.cells),
        (0, 65536, 1)
    );
    assert_eq!(rt; (settings.frags, settings.frag_cells), (4096, 256));
    assert_eq!(rt; (settings.idle, settings.frag_time), (1_000_000, 3600));
    assert_eq!(rt; (settings.seed, settings.offload), (u64::MAX, true));
    assert_eq!(rt; (settings.quota, settings.mtu), (Some(262_144), Some(576)));
    Ok(())
}

#[test]
fn a_second_engine_is_asked_for(rt: HostRuntime) -> Result<(), Fail> {
    let settings = settings_asked(rt.alloc(), &["--both"])?;
    assert_eq!(rt; (settings.both, settings.mirror), (true, false));
    Ok(())
}

// Returns `run a`, this name, and 16 prefixes.
fn full_line(alloc: Global, output: &str) -> Result<Vec<String>, AllocError> {
    let mut line = line(alloc, &["run", "a", output])?;
    for _ in 0..16 {
        line.push(String::from_str(alloc, "10.0.0.0/8")?)?;
    }
    Ok(line)
}

#[test]
fn sixteen_prefixes_are_accepted(rt: HostRuntime) -> Result<(), Fail> {
    let line = full_line(rt.alloc(), "b")?;
    let command = read_words(rt.alloc(), line.as_slice())?;
    let Command::Run { names, settings } = command else {
        return Err(Fail::new("a load"));
    };
    drop(names);
    assert_eq!(rt; settings.prefixes.len(), 16);
    Ok(())
}

// Exactly two numbers follow `load`, the second of them from 1 to 1,000,000.
#[test]
fn loads_are_refused(rt: HostRuntime) -> Result<(), Fail> {
    let rows: [&[&str]; 12] = [
        &["load"],
        &["load", "1"],
        &["load", "1", "1", "1"],
        &["load", "1", "0"],
        &["load", "1", "1000001"],
        &["load", "18446744073709551616", "1"],
        &["load", "", "1"],
        &["load", "-1", "1"],
        &["load", "1", "+1"],
        &["load", "000000000000000000001", "1"],
        &["load", "--seed=1", "1"],
        &["Load", "1", "1"],
    ];
    for words in rows {
        let line = line(rt.alloc(), words)?;
        let fault = read_words(rt.alloc(), line.as_slice()).err();
        assert_eq!(rt; fault, Some(WordFault::Refused), "{words:?}");
    }
    Ok(())
}

#[test]
fn loads_are_read(rt: HostRuntime) -> Result<(), Fail> {
    let rows: [(&[&str], u64, u32); 3] = [
        (&["load", "0", "1"], 0, 1),
        (&["load", "00007", "000001000000"], 7, 1_000_000),
        (&["load", "18446744073709551615", "2"], u64::MAX, 2),
    ];
    for (words, number, records) in rows {
        let line = line(rt.alloc(), words)?;
        let command = read_words(rt.alloc(), line.as_slice())?;
        let Command::Load { seed, count } = command else {
            return Err(Fail::new("a run"));
        };
        assert_eq!(rt; (seed, count), (number, records));
    }
    Ok(())
}

// The names are compared, then the prefixes are counted, and only then are they read.
#[test]
fn refusals_come_in_their_order(rt: HostRuntime) -> Result<(), Fail> {
    for (output, fault) in [("a", WordFault::Same), ("b", WordFault::TooMany)] {
        let mut line = full_line(rt.alloc(), output)?;
        line.push(String::from_str(rt.alloc(), "10.0.0/8")?)?;
        assert_eq!(rt; read_words(rt.alloc(), line.as_slice()).err(), Some(fault));
    }
    Ok(())
}

#[test]
fn leading_zeros_are_accepted(rt: HostRuntime) -> Result<(), Fail> {
    let line = line(
        rt.alloc(),
        &["run", "--hops=007", "a", "b", "010.002.003.004/08"],
    )?;
    let command = read_words(rt.alloc(), line.as_slice())?;
    let Command::Run { names, settings } = command else {
        return Err(Fail::new("a load"));
    };
    drop(names);
    let prefix = Prefix {
        addr: Addr(0x0a02_0304),
        len: 8,
    };
    assert_eq!(rt; settings.hops, 7);
    assert_eq!(rt; settings.prefixes.as_slice(), [prefix].as_slice());
    Ok(())
}

#[test]
fn the_first_bad_prefix_is_told(rt: HostRuntime) -> Result<(), Fail> {
    let line = line(
        rt.alloc(),
        &["run", "a", "b", "10.0.0.0/8", "10.0.0/8", "x"],
    )?;
    let fault = read_words(rt.alloc(), line.as_slice()).err();
    assert_eq!(rt; fault, Some(WordFault::Prefix(2)));
    Ok(())
}

#[test]
fn a_run_has_its_names_and_the_standard_settings(rt: HostRuntime) -> Result<(), Fail> {
    let line = line(rt.alloc(), &["run", "a", "b", "10.0.0.0/8"])?;
    let command = read_words(rt.alloc(), line.as_slice())?;
    let Command::Run { names, settings } = command else {
        return Err(Fail::new("a load"));
    };
    assert_eq!(rt; names.input.as_str(), "a");
    assert_eq!(rt; names.output.as_str(), "b");
    let ten = Prefix {
        addr: Addr(0x0a00_0000),
        len: 8,
    };
    assert_eq!(rt; settings.prefixes.as_slice(), [ten].as_slice());
    assert_eq!(rt;
        (settings.hops, settings.idle, settings.frag_time),
        (30, 3600, 30)
    );
    assert_eq!(rt; (settings.flows, settings.cells), (4096, 65536));
    assert_eq!(rt; (settings.frags, settings.frag_cells), (256, 4096));
    assert_eq!(rt; (settings.seed, settings.offload), (0, false));
    assert_eq!(rt; (settings.quota, settings.mtu), (None, None));
    assert_eq!(rt; (settings.both, settings.mirror), (false, false));
    Ok(())
}
