//! Lines of standard error.
use error_line::{Why, error_line, last_line};
use std::io;
use std::test::Fail;

#[test]
fn the_line_names_the_file_and_what_is_wrong(rt: HostRuntime) -> Result<(), Fail> {
    let file = "in.pcap";
    let error = io::Error::from_raw_os_error(2);
    let rows = [
        (
            Why::Words {
                stop: "stop words 1",
            },
            "norm: words refused (stop words 1)\n",
        ),
        (
            Why::Malformed {
                file,
                stop: "stop magic 0",
            },
            "norm: in.pcap: unknown magic number at offset 0\n",
        ),
        (
            Why::Malformed {
                file,
                stop: "stop in cut 24",
            },
            "norm: in.pcap: cut off in the head, record or block at offset 24\n",
        ),
        (
            Why::Malformed {
                file,
                stop: "stop report 3",
            },
            "norm: in.pcap: not the report of a finished run, by line 3\n",
        ),
        (
            Why::Malformed {
                file,
                stop: "stop report 0",
            },
            "norm: in.pcap: report of over 67108864 octets\n",
        ),
        (
            Why::Failed { file, error },
            "norm: in.pcap: No such file or directory\n",
        ),
        (
            Why::Failed {
                file: "a\nb",
                error,
            },
            "norm: a?b: No such file or directory\n",
        ),
        (Why::Memory, "norm: not enough memory\n"),
    ];
    for (why, line) in rows {
        let found = error_line(rt.alloc(), "norm", &why)?;
        assert!(rt; found.as_slice() == line.as_bytes(), "{line}");
    }
    Ok(())
}

#[test]
fn the_last_line_is_found(rt: HostRuntime) {
    assert_eq!(rt; last_line(b"stop cut 0\n"), "stop cut 0");
    assert_eq!(rt; last_line(b"one\ntwo\n"), "two");
    assert_eq!(rt; last_line(b""), "");
    assert_eq!(rt; last_line(b"\xff\n"), "");
}
