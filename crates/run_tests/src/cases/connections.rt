//! Connections, and ICMP errors about them.

/// The cases, in the notation of `crate::cases`.
pub const CONNECTIONS: &str = "\
# a TTL equal to the number of routers, and one above it
> UDP $SUMMED [ttl=30]  1 in fix 1 I_TTL
  > UDP $SUMMED [ttl=31]
> UDP $SUMMED [ttl=31]  2 in pass 1

# a whole connection
request

# an equal retransmission
opened
> PA 1000,5001 abcd  4 in pass 1 @1
> PA 1000,5001 abcd  5 in pass 1 @1

# a retransmission that differs
opened
> PA 1000,5001 abcd  4 in pass 1 @1
> PA 1000,5001 abXd  5 in fix 1 T_CLASH @1
  > PA 1000,5001 abcd

# octets below the acknowledged offset
opened
> PA 1000,5001 abcd  4 in pass 1 @1
< A 5001,1004        5 out pass 1 @1
> PA 1000,5001 abXd  6 in fix 1 T_OLD @1
  > PA 1000,5001

# octets past a window of four octets
> S 999                    1 in pass 1 @1 +1
< SA 5000,1000 [win=4]     2 out pass 1 @1
> A 1000,5001              3 in pass 1 @1
> PA 1000,5001 ab          4 in pass 1 @1
< A 5001,1002 [win=4]      5 out pass 1 @1
> PA 1000,5001 abcdefghij  6 in fix 1 T_OLD T_WINDOW @1
  > PA 1002,5001 cdefg

# a segment without a connection is replaced by a probe; the answer begins an era
> PA 1000,5001 abcd  1 in fix 1 C_PROBE
  > A 999,5001
< A 5001,1000        2 out pass 1 @1 +1
> PA 1000,5001 abcd  3 in pass 1 @1

# a RST with the next sequence number, followed by a probe
opened
> R 1000             4 in fix 2 C_PROBE @1
  > R 1000
  > A 999,5001
< A 5001,1000        5 out pass 1 @1
> PA 1000,5001 abcd  6 in pass 1 @1

# a RST below the acknowledged offset
opened
> PA 1000,5001 abcd  4 in pass 1 @1
< A 5001,1004        5 out pass 1 @1
> R 1003             6 in drop 0 T_RST @1

# payloads and FINs that disagree with the end of the stream
opened
> PA 1004,5001 efgh  4 in pass 1 @1
> FA 1000,5001 abcd  5 in fix 1 T_END @1
  > A 1000,5001 abcd
> FA 1008,5001       6 in pass 1 @1
> FA 1009,5001       7 in fix 1 T_END @1
  > A 1009,5001
> A 1008,5001 ij     8 in fix 1 T_END @1
  > A 1008,5001

# octets of a block for which no cell is free
run --cells 1
opened
> PA 1000,5001 a*300  4 in drop 0 T_ROOM @1
> PA 1000,5001 a*256  5 in pass 1 @1

# an era without octets is evicted; if each holds octets, the outside begins none
run --flows 1
> S 999                        1 in pass 1 @1 +1
> S 999 [port=40001]           2 in pass 1 @2 +2 -1:evicted:0
< SA 5000,1000 [port=40001]    3 out pass 1 @2
> PA 1000,5001 a [port=40001]  4 in pass 1 @2
> S 999                        5 in drop 0 T_FULL
< S 7000 [port=40003]          6 out pass 1 T_FULL

# an idle era ends before the record is judged, so another era can begin
run --flows 1 --idle 1
opened
> PA 1000,5001 a          4 in pass 1 @1
> S 999 [port=40001 t=9]  5 in pass 1 @2 +2 -1:idle:1

# a stream past 2^31 octets
> S 4294967294             1 in pass 1 @1 +1
< SA 5000,4294967295       2 out pass 1 @1
> PA 4294967295,5001 abcd  3 in pass 1 @1
< A 5001,3                 4 out pass 1 @1
< A 5001,2147483646        5 out pass 1 @1
> PA 2147483646,5001 xy    6 in pass 1 @1

# a stream past 2^32 octets
opened
< A 5001,2147484647  4 out pass 1 @1
< A 5001,998         5 out pass 1 @1
> PA 998,5001 wxyz   6 in pass 1 @1
< A 5001,1001        7 out pass 1 @1
> PA 1000,5001 Abcd  8 in fix 1 T_OLD T_CLASH @1
  > PA 1001,5001 zcd

# a second SYN
opened
> S 7000  4 in drop 1 T_SYN @1
  > A 999,5001

# an outbound RST ends the era
opened
< R 5001       4 out pass 1 @1 -1:reset:0
> A 1000,5001  5 in fix 1 C_PROBE
  > A 999,5001

# a SYN after a closed connection
request
> S 70000  11 in pass 1 @2 +2 -1:reopened:18

# each field of a TCP header that is rewritten
opened
> PA 1000,5001 abcd [res=1 urg=2 opt=0xfe04aabb]  4 in fix 1 T_RES T_URG T_OPT @1
  > PA 1000,5001 abcd [opt=0x01010101]

# an inside host opens a connection
< S 5000             1 out pass 1 @1 +1
> SA 999,5001        2 in pass 1 @1
< A 5001,1000        3 out pass 1 @1
> PA 1000,5001 abcd  4 in pass 1 @1

# an inside host opens a connection; the answer is wrong, then a RST
< S 5000       1 out pass 1 @1 +1
> SA 999,7000  2 in drop 1 T_STATE @1
  > A 998,7000
> RA 0,5001    3 in fix 2 C_PROBE @1
  > RA 0,5001
  > A 4294967295,5001

# an era that was idle for 3,600 seconds, and for one second more
> S 999                 1 in pass 1 @1 +1
> UDP $SUMMED [t=3600]  2 in pass 1
> UDP $SUMMED [t=3601]  3 in pass 1 -1:idle:0

# ICMP messages; the last one quotes a connection
> ICMP 0x00*8              1 in drop 0 M_SUM
> ICMP 0x0000ffff00000000  2 in pass 1
> ICMP 0x0500faff00000000  3 in drop 0 M_TYPE
> ICMP $UNREACHABLE        4 in drop 0 M_QUOTE

# an ICMP error that quotes a live connection
opened
> ICMP $UNREACHABLE  4 in pass 1

# a TCP checksum that the network card has not yet filled in
< A 5001,1000 [sum=0]  1 out drop 0 T_SUM

# the same, rewritten with --offload
run --offload
< A 5001,1000 [sum=0]  1 out fix 1 T_SUM_OUT @1 +1
  < A 5001,1000

# a quota of one cell, until octets are acknowledged
run --quota 1
opened
> PA 1000,5001 a*300  4 in drop 0 T_QUOTA @1
> PA 1000,5001 a*256  5 in pass 1 @1
> PA 1256,5001 a      6 in drop 0 T_QUOTA @1
< A 5001,1256         7 out pass 1 @1
> PA 1256,5001 a      8 in pass 1 @1

# a file header without records

# a UDP message
> UDP $SUMMED  1 in pass 1

# a window is scaled after the SYN
> S 999 [opt=0x01030301]               1 in pass 1 @1 +1
< SA 5000,1000 [win=4 opt=0x01030302]  2 out pass 1 @1
> A 1000,5001                          3 in pass 1 @1
> PA 1000,5001 abcdefghijklmnopqrst    4 in fix 1 T_WINDOW @1
  > PA 1000,5001 abcde
< A 5001,1000 [win=4]                  5 out pass 1 @1
> PA 1000,5001 abcdefghijklmnopqrst    6 in fix 1 T_WINDOW @1
  > PA 1000,5001 abcdefghijklmnopq

# a window scale that only one SYN had
> S 999                                1 in pass 1 @1 +1
< SA 5000,1000 [win=4 opt=0x01030302]  2 out pass 1 @1
> A 1000,5001                          3 in pass 1 @1
< A 5001,1000 [win=4]                  4 out pass 1 @1
> PA 1000,5001 abcdefghijklmnopqrst    5 in fix 1 T_WINDOW @1
  > PA 1000,5001 abcde

# a connection without SYNs has the largest scale
< A 5001,1000 [win=1]  1 out pass 1 @1 +1
> PA 17385,5001 abc    2 in fix 1 T_WINDOW @1
  > PA 17385,5001

# the octet right after the window passes
< A 5001,1000 [win=1]  1 out pass 1 @1 +1
> PA 17384,5001 abc    2 in fix 1 T_WINDOW @1
  > PA 17384,5001 a

# an outbound SYN with another number reopens the connection
opened
< S 6000  4 out pass 1 @2 +2 -1:reopened:0

# an outbound SYN with the same number does not
opened
< SA 5000,1000  4 out pass 1 @1

# an outbound SYN reopens a connection that began without one
< A 5001,1000  1 out pass 1 @1 +1
< S 5000       2 out pass 1 @2 +2 -1:reopened:0

# a segment before the answer to a SYN
> S 999           1 in pass 1 @1 +1
> A 1000,5001 ab  2 in drop 1 T_STATE @1
  > A 999,5001

# a second SYN before the answer, without a probe
> S 999   1 in pass 1 @1 +1
> S 7000  2 in drop 0 T_SYN @1

# a RST before the answer, without a probe
> S 999   1 in pass 1 @1 +1
> R 1000  2 in pass 1 @1

# both sides open a connection at once
< S 5000           1 out pass 1 @1 +1
> S 999            2 in pass 1 @1
< SA 5000,1000     3 out pass 1 @1
> SA 999,5001      4 in pass 1 @1
> PA 1000,5001 ab  5 in pass 1 @1

# of four idle eras two end with each record
> S 999 [port=40001]         1 in pass 1 @1 +1
> S 999 [port=40002]         2 in pass 1 @2 +2
> S 999 [port=40003]         3 in pass 1 @3 +3
> S 999 [port=40004]         4 in pass 1 @4 +4
> S 999 [port=40009 t=3601]  5 in pass 1 @5 +5 -1:idle:0 -2:idle:0
> S 998 [port=40001 t=3601]  6 in pass 1 @6 +6 -3:idle:0 -4:idle:0

# a record dropped for its length advances the time
> S 999          1 in pass 1 @1 +1
> RAW [t=3601]   2 - drop 0 I_SHORT -1:idle:0
> IGMP [t=3700]  3 in drop 0 P_PROTO

# a probe in place of a dropped packet has a raised TTL
opened
> S 7000 [ttl=1]  4 in drop 1 T_SYN @1
  > A 999,5001 [ttl=31]

# an ICMP error about a connection in the other direction
opened
> ICMP $QUOTING  4 in drop 0 M_QUOTE

# a connection closed by both sides stays closed to data
opened
< FA 5001,1000     4 out pass 1 @1
> FA 1000,5002     5 in pass 1 @1
< A 5002,1001      6 out pass 1 @1
> PA 1000,5002 zz  7 in fix 1 T_OLD T_END @1
  > PA 1000,5002
> SA 7000,5002     8 in drop 1 T_SYN @1
  > A 1000,5002
> S 7000           9 in pass 1 @2 +2 -1:reopened:0

# an outbound SYN reopens a connection in a full table
run --flows 1
opened
> PA 1000,5001 ab  4 in pass 1 @1
< S 6000           5 out pass 1 @2 +2 -1:reopened:2

# the era without octets is evicted
run --flows 2
opened
> PA 1000,5001 ab     4 in pass 1 @1
> S 999 [port=40001]  5 in pass 1 @2 +2
> S 999 [port=40002]  6 in pass 1 @3 +3 -2:evicted:0

# a block whose only octet is acknowledged
run --quota 1
opened
> PA 1000,5001 a  4 in pass 1 @1
< A 5001,1001     5 out pass 1 @1
> PA 1256,5001 b  6 in pass 1 @1

# the first octet of a block, after the others
run --quota 1
opened
> PA 1257,5001 b*100  4 in pass 1 @1
> PA 1256,5001 a      5 in pass 1 @1
< A 5001,1300         6 out pass 1 @1
> PA 1512,5001 c      7 in drop 0 T_QUOTA @1

# the last octet of a block, after the next block
run --quota 2
opened
> PA 1256,5001 b*100  4 in pass 1 @1
> PA 1255,5001 a      5 in pass 1 @1
< A 5001,1300         6 out pass 1 @1
> PA 1512,5001 c      7 in pass 1 @1

# the answer to a SYN with the greatest sequence number
< S 4294967295  1 out pass 1 @1 +1
> SA 999,0      2 in pass 1 @1
< A 0,1000      3 out pass 1 @1

# octets are acknowledged, and the FIN is not
opened
> FPA 1000,5001 ab  4 in pass 1 @1
< FA 5001,1002      5 out pass 1 @1
> S 7000            6 in drop 1 T_SYN @1
  > A 1001,5002

# a checksum of 0 is written as 65,535
run --offload
< UDP 0x00359c40000a0001+0x2f29  1 out fix 1 U_SUM_OUT
  < UDP 0x00359c40000affff+0x2f29

# a source route before the end of the options
> UDP $SUMMED [ipopt=0x83030400]  1 in drop 0 I_ROUTE

# an option with a length of one octet
> S 999 [opt=0x02010101]  1 in drop 0 T_OPT_BAD

# an octet after the end of the options
> S 999 [opt=0x00010000]  1 in fix 1 T_OPT @1 +1
  > S 999 [opt=0x00000000]

# an option that stands twice
> S 999 [opt=0x020405b4020405b4]  1 in fix 1 T_OPT @1 +1
  > S 999 [opt=0x020405b401010101]

# another option of three octets before the window scale
> S 999 [opt=0x01030301]                       1 in pass 1 @1 +1
< SA 5000,1000 [win=4 opt=0xfe03090103030201]  2 out pass 1 @1
> A 1000,5001                                  3 in pass 1 @1
> PA 1000,5001 abcdefghijklmnopqrst            4 in fix 1 T_WINDOW @1
  > PA 1000,5001 abcde
< A 5001,1000 [win=4]                          5 out pass 1 @1
> PA 1000,5001 abcdefghijklmnopqrst            6 in fix 1 T_WINDOW @1
  > PA 1000,5001 abcdefghijklmnopq

# an ICMP error that quotes a long header, and one of another version
opened
> ICMP 0x0300606f00000000+0x4b000034000100004006347c0a000001c6336407+0x01*24+0x00509c4000000000  4 in pass 1
> ICMP 0x0300606f00000000+0x3f00004400010000400638640a000001c6336407+0x01*40+0x00509c4000000000  5 in drop 0 M_QUOTE

# an empty record at the end
> S 999  1 in pass 1 @1 +1
> RAW    2 - drop 0 I_SHORT

# IPv4 and TCP checksums of 0
run --offload
< A 5001,1000 0xa795 [wrongsum id=18067]  1 out fix 1 T_SUM_OUT @1 +1
  < A 5001,1000 0xa795 [id=18067]

# a second connection after the first is closed
opened
> PA 1000,5001 GET_/_HTTP/1.0+0x0d0a0d0a   4 in pass 1 @1
< A 5001,1018                              5 out pass 1 @1
< PA 5001,1018 HTTP/1.0_200_OK+0x0d0a0d0a  6 out pass 1 @1
> A 1018,5020                              7 in pass 1 @1
< FA 5020,1018                             8 out pass 1 @1
> FA 1018,5021                             9 in pass 1 @1
< A 5021,1019                              10 out pass 1 @1
> S 70000                                  11 in pass 1 @2 +2 -1:reopened:18

# octets that arrive again, and octets that differ from those sent first
opened
> PA 1000,5001 abcd  4 in pass 1 @1
> PA 1000,5001 abcd  5 in pass 1 @1
> PA 1000,5001 abXd  6 in fix 1 T_CLASH @1
  > PA 1000,5001 abcd
< A 5001,1004        7 out pass 1 @1
> PA 1000,5001 abXd  8 in fix 1 T_OLD @1
  > PA 1000,5001
> R 1003             9 in drop 0 T_RST @1
> S 7000             10 in drop 1 T_SYN @1
  > A 1003,5001

# probes after a segment and a RST without a connection
> PA 1000,5001 abcd  1 in fix 1 C_PROBE
  > A 999,5001
< A 5001,1000        2 out pass 1 @1 +1
> PA 1000,5001 abcd  3 in pass 1 @1
> R 1000             4 in fix 2 C_PROBE @1
  > R 1000
  > A 999,5001
< R 5001             5 out pass 1 @1 -1:reset:4
> A 1000,5001        6 in fix 1 C_PROBE
  > A 999,5001
> R 1000             7 in drop 0 T_COLD

# an inside host opens a connection after wrong answers
< S 5000             1 out pass 1 @1 +1
> SA 999,7000        2 in drop 1 T_STATE @1
  > A 998,7000
> PA 1000,5001 abcd  3 in drop 1 T_STATE @1
  > A 999,5001
> RA 0,5001          4 in fix 2 C_PROBE @1
  > RA 0,5001
  > A 4294967295,5001
> SA 999,5001        5 in pass 1 @1
< A 5001,1000        6 out pass 1 @1
> PA 1000,5001 abcd  7 in pass 1 @1

# reserved bits, urgent marks and options that are not kept
> S 999 evil                                      1 in fix 1 T_STRIP @1 +1
  > S 999
< SA 5000,1000                                    2 out pass 1 @1
> A 1000,5001                                     3 in pass 1 @1
> PA 1000,5001 abcd [opt=0xfe04aabb res=1 urg=2]  4 in fix 1 T_RES T_URG T_OPT @1
  > PA 1000,5001 abcd [opt=0x01010101]

# a probe passes each router behind the bridge
opened
> S 7000 [ttl=30]  4 in drop 1 T_SYN @1
  > A 999,5001 [ttl=31]
> S 7000 [ttl=31]  5 in drop 1 T_SYN @1
  > A 999,5001 [ttl=31]

# the era written least recently is evicted, unless it holds octets
run --flows 2
> S 999                          1 in pass 1 @1 +1
> S 999 [port=40001]             2 in pass 1 @2 +2
> S 999 [port=40002]             3 in pass 1 @3 +3 -1:evicted:0
> S 999 [port=40003]             4 in pass 1 @4 +4 -2:evicted:0
< SA 5000,1000 [port=40002]      5 out pass 1 @3
> PA 1000,5001 abc [port=40002]  6 in pass 1 @3
> S 999 [port=40003]             7 in pass 1 @4
> S 999                          8 in pass 1 @5 +5 -4:evicted:0
< A 5001,1003 [port=40002]       9 out pass 1 @3
> S 999                          10 in pass 1 @5
> S 999 [port=40001]             11 in pass 1 @6 +6 -3:evicted:3

# an era is idle past 3,600 seconds; two end at a time, before a slot is needed
run --flows 3
> S 999                      1 in pass 1 @1 +1
> S 999 [port=40001]         2 in pass 1 @2 +2
> S 999 [port=40002]         3 in pass 1 @3 +3
> R 999 [port=40003 t=3600]  4 in drop 0 T_COLD
> S 999 [port=40003 t=3601]  5 in pass 1 @4 +4 -1:idle:0 -2:idle:0
> S 999 [t=3601]             6 in pass 1 @5 +5 -3:idle:0
";
