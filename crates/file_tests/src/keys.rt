//! Each key of JSON has one type, in all events.
use crate::views::{ANSWER, BOTH_RUN, DATA, RUN, Run, SYN, printed};
use serde_json::Value;
use std::alloc::{AllocError, Global};
use std::test::Fail;

/// A key, with the keys of the objects that it is in, and the type of its values.
#[derive(Drop)]
struct Key {
    path: String,
    kind: &'static str,
}

// Returns the name of the type of a value; None for null, which goes with each type.
fn kind_of(value: &Value) -> Option<&'static str> {
    match value {
        Value::Null => None,
        Value::Bool(_) => Some("boolean"),
        Value::Number(_) => Some("number"),
        Value::String(_) => Some("string"),
        Value::Array(_) => Some("array"),
        Value::Object(_) => Some("object"),
    }
}

// Returns the path of a member, or of the elements of an array.
fn joined(alloc: Global, path: &str, name: &str) -> Result<String, AllocError> {
    let mut joined = String::from_str(alloc, path)?;
    joined.push_str("/")?;
    joined.push_str(name)?;
    Ok(joined)
}

// Notes the type of a key, and returns false if the key had another.
fn is_same(alloc: Global, keys: &mut Vec<Key>, path: &str, value: &Value) -> Result<bool, Fail> {
    let Some(kind) = kind_of(value) else {
        return Ok(true);
    };
    for key in keys.as_slice() {
        if key.path.as_str() == path {
            return Ok(key.kind == kind);
        }
    }
    keys.push(Key {
        path: String::from_str(alloc, path)?,
        kind,
    })?;
    Ok(true)
}

// Adds what a value has inside to the values that are left.
fn add_inner<'a>(
    alloc: Global,
    path: &str,
    value: &'a Value,
    left: &mut Vec<(String, &'a Value)>,
) -> Result<(), Fail> {
    match value {
        Value::Array(values) => {
            for one in values {
                left.push((joined(alloc, path, "[]")?, one))?;
            }
        }
        Value::Object(members) => {
            for (name, one) in members {
                left.push((joined(alloc, path, name.as_str())?, one))?;
            }
        }
        _ => {}
    }
    Ok(())
}

// Notes the types of all keys of a value, and returns the first key that had another.
fn first_other_in(
    alloc: Global,
    keys: &mut Vec<Key>,
    value: &Value,
) -> Result<Option<String>, Fail> {
    let mut left = Vec::new(alloc);
    left.push((String::new(alloc), value))?;
    for _ in 0..u16::MAX {
        let Some((path, one)) = left.pop() else {
            return Ok(None);
        };
        if !is_same(alloc, keys, path.as_str(), one)? {
            return Ok(Some(path));
        }
        add_inner(alloc, path.as_str(), one, &mut left)?;
    }
    Ok(Some(String::from_str(alloc, "too many values")?))
}

// Returns the first key of these lines that has two types.
fn first_other(alloc: Global, lines: &str) -> Result<Option<String>, Fail> {
    let mut keys = Vec::new(alloc);
    for line in lines.lines() {
        let value = Value::from_str(alloc, line)?;
        let other = first_other_in(alloc, &mut keys, &value)?;
        if other.is_some() {
            return Ok(other);
        }
    }
    Ok(None)
}

/// Frames that are probes and datagrams which norm made.
const MADE: Run = Run {
    input: (101, &[&DATA, &DATA, &DATA]),
    output: (101, &[&DATA, &SYN, &DATA, &DATA]),
    report: "norm 2\n1 in fix 2 C_PROBE @1 +1\n2 in fix 1 F_DONE @1\n3 in fix 1 T_OLD @1\nend 3 4\n",
};

const MADE_BOTH: &str =
    "norm 2 both\n1 in fix 2 C_PROBE @1 +1\n/1 out pass 1 @1 +1\n/2 out pass 1 @1\n2 in fix 1 F_DONE @1\n\
    /3 out fix 1 T_OLD @1\n3 in pass 1 @1\n/4 out fix 2 C_PROBE @1\nend 3 5\n";

const MADE_TWICE: Run = Run {
    output: (101, &[&DATA, &SYN, &DATA, &DATA, &SYN]),
    report: MADE_BOTH,
    ..MADE
};

/// An ARP frame of 28 octets after its link header, and an IPv6 frame of 4.
const ARP: [u8; 42] = [
    0xff, 0xff, 0xff, 0xff, 0xff, 0xff, 2, 0, 0, 0, 0, 1, 8, 6, 0, 1, 8, 0, 6, 4, 0, 1, 2, 0, 0, 0,
    0, 1, 10, 0, 0, 1, 0, 0, 0, 0, 0, 0, 10, 0, 0, 2,
];

const IPV6: [u8; 18] = [
    2, 0, 0, 0, 0, 2, 2, 0, 0, 0, 0, 1, 0x86, 0xdd, 0x60, 0, 0, 0,
];

const ETHERNET: Run = Run {
    input: (1, &[&ARP, &IPV6]),
    output: (1, &[&ARP]),
    report: "norm 2\n1 - pass 1\n2 - drop 0 L_TYPE\nend 2 1\n",
};

/// A connection whose first segment goes outwards, and whose inbound octets are sent twice.
const TURNED: Run = Run {
    input: (101, &[&ANSWER, &DATA, &DATA]),
    output: (101, &[&ANSWER, &DATA, &DATA]),
    report: "norm 2\n1 out pass 1 @1 +1\n2 in pass 1 @1\n3 in pass 1 @1 -1:reset:4\nend 3 3\n",
};

// The runs whose lines are read, each of all records, of some, and of the notes.
const RUNS: &[Run] = &[RUN, BOTH_RUN, MADE, MADE_TWICE, ETHERNET, TURNED];

const WORDS: &[&str] = &[
    "--json in out report",
    "--json --only fix,drop in out report",
    "--json --notes in out report",
    "--json --side up in out report",
];

// Returns what all views of these runs print.
fn all_printed(alloc: Global, runs: &[Run]) -> Result<String, Fail> {
    let mut text = String::new(alloc);
    for run in runs {
        for words in WORDS {
            let _status = printed(alloc, *run, *words, [0; 4], &mut text)?;
        }
    }
    Ok(text)
}

#[test]
fn keys_have_one_type(rt: HostRuntime) -> Result<(), Fail> {
    let text = all_printed(rt.alloc(), RUNS)?;
    assert!(rt; text.as_str().lines().count() > 60);
    assert_eq!(rt; first_other(rt.alloc(), text.as_str())?, None);
    Ok(())
}

// Lines in which a key has two types.
const OTHERS: &[&str] = &[
    "{\"a\":1}\n{\"a\":\"1\"}\n",
    "{\"a\":[{\"b\":1},{\"b\":{}}]}\n",
    "{\"a\":[1,true]}\n",
];

#[test]
fn keys_of_two_types_are_found(rt: HostRuntime) -> Result<(), Fail> {
    for lines in OTHERS {
        assert!(rt; first_other(rt.alloc(), *lines)?.is_some());
    }
    Ok(())
}
