//! The texts that the program prints if its only word asks for them.

/// The answer to `--version`.
pub const VERSION: &str = "normview 0.2.0\n";

/// The answer to `--help` and `-h`.
pub const HELP: &str = "normview: what became of each record of a run of norm, and why

usage: normview [OPTION..] IN OUT REPORT
       normview --help | -h | --version

  IN      the capture that norm run read: classic pcap or pcapng
  OUT     the capture that it wrote
  REPORT  its report, of version 1 or 2, also of a run with --both

The files are those of a finished run. They are read in step, a record at a time:
memory grows with eras and datagrams in fragments. A summary is printed: verdicts by side, frames,
each rule that was named with its number and a sentence, eras by their end and by
what opened them; then a line for each era, and notes on an IN that lacks packets or
is bad in another way. norm-report(5) explains the words of a report.

Options go before IN, each at most once, as --name=VALUE or --name VALUE. A LIST has
its items between commas, each once. With one or more of the first six, all lines of
the records that meet each of them are printed, and how many such records there are:

  --rule LIST   records of which a line names one of these rules: T_CLASH,T_OLD
  --era E       records of which a line belongs to era E, begins it or ends it; second:E with --both
  --only LIST   records of which a line has one of these verdicts: pass, fix, hold, drop
  --side LIST   records with one of these sides: in, out, -
  --host A      records from or to this address or prefix: 10.0.0.1, 10.0.0.0/8
  --evidence    records of which an inbound line, or one without a side, is not pass; 11 if there are some
  --summary     no lines of records and eras: the summary and the notes, or how many records are chosen
  --json        JSON objects, one a line
  --notes       the notes on IN alone, and 10 if one says that IN may be bad; with no choice
  --table NAME  a table, its cells with tabs between them: records or eras; eras with no choice

The notes are lost, order, half, one, card, wrong, twice, foreign, tagged, ipv6, tunnels, full, cut
and unjudged. Each has its counts, and says what to do or what is not judged: see normview(1).

The line of a record has these parts; what a record lacks is left out:

  N TIME SIDE SRC:PORT > DST:PORT PROTO FLAGS seq S ack A window W type T code C
    id I offset O more len L VERDICT era E begins era E ends era E REASON octets N
    RULE (sentence) frames F out K; frame I FIELD FROM > TO, FIELD FROM > TO; ..

N is the record's number, L the captured octets of its payload, K the numbers in OUT of
its F frames. The window stands on a line that names T_WINDOW, I, O and more on one
that names a rule of fragments. Where no IPv4 header can be read, PROTO is arp or ethertype
and its number. Of the frames those are listed that differ from the record: frame I in
each FIELD, from its value in the record to that in the frame, - for none. Of the payload
it says how many octets were cut in front and at the end, how many the frame has more,
and which were replaced, with the offset in the record's; of octets the first 64 are
shown. A frame that norm made itself is not compared: frame I probe or frame I datagram,
with its protocol, marks and length. With --evidence replaced octets have first N, the record that
first sent them, and so has a fragment that differs from those held: fragment at O.

With --both a line of the second engine is N/K: its line /K, of record N; it is printed
with the others of its record. A line of the first engine has no frames in OUT: given F
says how many the second engine was given. Verdicts of the second engine have lines of
their own in the summary, and its eras are named era second E.

The line of an era has these; the outside host comes first:

  era E OUTSIDE:PORT <-> INSIDE:PORT opened WORD FIRST LAST records N sent S octets O
    END RULE ..

WORD is in for a SYN of the outside host, out for one of the inside host, mid for anything
else. FIRST and LAST are the times of its first and its last record, - without one, S the
octets of its segments that went inwards, each time that they did, O the number of the
report, which counts each offset once, END live or why it ended.

Status and last line:

  0  none: all three files were read to their end
  1  no record N: IN lacks record N of REPORT, has one more, or record N passed and its frame in OUT differs
  1  no frame N: OUT lacks frame N of REPORT, or has one more than REPORT
  2  stop words: the words are no words of a view; files may have been opened, and nothing is read
  3  stop in KIND O, stop out KIND O: IN or OUT is malformed at offset O
  3  stop out link 0: also where IN and OUT are not of the same network
  4  stop in cut O, stop out cut O: IN or OUT ends inside its head, a record or a block
  5  stop read: IN, OUT or REPORT could not be opened or read
  7  none: the output could not be written, or was cut off
  8  stop memory: memory could not be allocated
  9  stop report N: line N of REPORT belongs to no report of a finished run
 10  none: with --notes, a note says that IN may be bad
 11  none: with --evidence, a record was chosen

From 2 to 9 one line on standard error says why.

KIND is magic, version, link, block, long or many, as in a report. What was printed
before a last line stays.

Examples:

  normview in.pcap out.pcap report.txt
  normview --rule T_CLASH in.pcap out.pcap report.txt
  normview --json --only drop,hold in.pcap out.pcap report.txt
  normview --table eras in.pcap out.pcap report.txt
";
