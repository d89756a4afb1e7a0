//! The texts that the program prints if its only word asks for them.

/// The answer to `--version`.
pub const VERSION: &str = "normaudit 0.2.0\n";

/// The answer to `--help` and `-h`.
pub const HELP: &str = "normaudit: an audit of a capture that norm wrote, and of its report

usage: normaudit OUT REPORT HOPS
       normaudit --help | -h | --version

  OUT     the written capture: classic pcap of Ethernet or raw IP
  REPORT  the report of the run that wrote it, of version 1 or 2
  HOPS    0 to 254, in 1 to 3 digits: routers behind the bridge

The frames of OUT belong to the lines of REPORT in order, to each as many as it
names. The audit reads these two files alone, not the rules of the run: each
frame that went inwards must be one that every receiver behind at most HOPS
routers reads alike, and those of one era must give one stream. Then any two
receivers that begin at the same octet deliver streams of which one is a prefix of
the other, whichever of these frames reach each of them, how often and in which
order, if each frame does while its octets and its FIN are within 2^31 of the next
octet. Only yes is conclusive: no is also the answer to an outward frame that is
no segment.
One line gives the answer. norm-report(5) explains the words of a report; one of a
run with --both is not read.

Status and line:

  0  yes E F: it is so; REPORT names E eras, and OUT has F frames
  1  no F REASON: frame F, counted from 1, is the first that is not so
  2  stop words: the words are no words of an audit
  3  stop magic 0, stop version 0, stop link 0: OUT is no capture of this kind
  3  stop long O, stop many O: a record of over 262144 octets, or one past 2^32 - 1
  4  stop cut O: OUT ends inside its head or a record
  5  stop read: OUT or REPORT could not be opened or read
  7  none: the line could not be written, or was cut off
  8  stop memory: memory could not be allocated
  9  stop report N: REPORT is not that of a finished run, by its line N; 0 where it has over 67108864 octets

From 2 on one line on standard error says why.

Reasons, in the order in which they are tested:

  count  OUT has a frame that REPORT does not name, or REPORT names one that is not there
  plain  receivers may read it otherwise, or its line names an era that it is no segment of
  base   it brings octets or a FIN before anything fixes where the stream begins
  syn    its SYN has another number than the one before the stream
  octet  one of its octets differs from the one first sent at that offset, or lies at or past the end
  fin    its FIN is at another offset than the end; or, as the first one, below octets, or below 0 if there are none

An audit of yes 0 N says only that no era is in the report: where most of
its lines name T_SUM, the capture has sums that a network card never filled in.

Example:

  normaudit out.pcap report.txt 30
";
