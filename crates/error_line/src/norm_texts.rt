//! The texts that `norm` prints if its only word asks for them. They are here because a crate of
//! tests cannot use those of a program.

/// The answer of `norm` to `--version`.
pub const NORM_VERSION: &str = "norm 0.2.0\n";

/// The answer of `norm` to `--help` and `-h`.
pub const NORM_HELP: &str =
    "norm: an inline traffic normalizer for IPv4, from capture file to capture file

usage: norm run [OPTION..] IN OUT PREFIX..
       norm load SEED COUNT
       norm --help | -h | --version

  IN, OUT  the capture to read (pcap or pcapng, Ethernet or raw IP), and the one to write
  PREFIX   trusted addresses, as 10.0.0.0/8; from 1 to 16 prefixes

Options go before IN, each at most once, as --name=N or --name N:
  --hops N        0 to 254, default 30: routers behind the bridge
  --flows N       1 to 65536, default 4096: connections followed at once
  --cells N       1 to 262144, default 65536: cells of 256 octets for streams
  --frags N       1 to 4096, default 256: datagrams in reassembly at once
  --frag-cells N  256 to 65536, default 4096: cells of 256 octets for fragments
  --idle N        1 to 1000000, default 3600: seconds until a silent connection ends
  --frag-time N   1 to 3600, default 30: seconds until a datagram is given up
  --seed N        0 to 18446744073709551615, default 0: hash seed of the tables
  --quota N       1 to 262144, default none: cells that one connection may take
  --mtu N         576 to 65535, default none: octets that a written packet may have
  --inside NAME   default none: interface of IN, a pcapng file, behind which the hosts are
  --offload       default off: rewrite wrong checksums of outbound packets
  --both          default off: protect both sides: a second engine reads what the first writes

Status and last line of the report, on standard output; O is an offset in IN:
  0  end R P: IN was read to its end; R records were read, P frames written
  2  stop words N: the words are refused; nothing is read or written
  3  stop magic O, stop version O, stop link O: IN is no capture of this kind
  3  stop block O: a block is malformed, or IN has no blocks and --inside is given
  3  stop long O, stop many O: a record of over 262144 octets, or one past 2^32 - 1
  4  stop cut O: IN ends inside its head, a record or a block
  5  stop read O: IN could not be opened or read
  6  stop capture O: OUT could not be created or written
  7  none: the report could not be written
  8  stop memory O: memory could not be allocated
Man pages: norm(1) has refused words and usual mistakes, norm-report(5) the report.

  norm run --hops 12 --offload in.pcap out.pcap 10.0.0.0/8 192.168.0.0/16
  norm load 7 200000
";
