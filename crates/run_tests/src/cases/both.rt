//! Runs with `--both`, which protects both sides.

/// The cases, in the notation of `crate::cases`.
pub const BOTH: &str = "\
# both sides: a whole connection
run --both
request

# both sides: the second engine rewrites an outbound retransmission that differs
run --both
opened
< PA 5001,1000 abcd  4 out pass 1 @1  /4 in pass 1 @1
< PA 5001,1000 abXd  5 out pass 1 @1  /5 in fix 1 T_CLASH @1
  < PA 5001,1000 abcd
stream out 0 abcd

# both sides: a packet that the first engine drops does not reach the second one
run --both
opened
> R 1003             4 in drop 0 T_RST @1
> PA 1000,5001 abcd  5 in pass 1 @1  /4 out pass 1 @1

# both sides: a file header without records
run --both

# both sides: overlapping outbound segments, out of order
run --both
opened
< PA 5003,1000 cdef    4 out pass 1 @1  /4 in pass 1 @1
< PA 5001,1000 abXXgh  5 out pass 1 @1  /5 in fix 1 T_CLASH @1
  < PA 5001,1000 abcdef
stream out 0 abcdef

# both sides: overlaps in both directions
run --both
opened
> PA 1000,5001 abcd  4 in pass 1 @1  /4 out pass 1 @1
< PA 5001,1000 efgh  5 out pass 1 @1  /5 in pass 1 @1
> PA 1002,5001 XXyz  6 in fix 1 T_CLASH @1  /6 out pass 1 @1
  > PA 1002,5001 cdyz
< PA 5000,1000 XeX   7 out pass 1 @1  /7 in fix 1 T_OLD T_CLASH @1
  < PA 5001,1000 ef
stream 0 abcdyz
stream out 0 efgh

# both sides: outbound octets that are acknowledged, and past the window
run --both
opened
< PA 5001,1000 abcd      4 out pass 1 @1  /4 in pass 1 @1
> A 1000,5005 [win=4]    5 in pass 1 @1  /5 out pass 1 @1
< PA 5001,1000 abXdefgh  6 out pass 1 @1  /6 in fix 1 T_OLD @1
  < PA 5005,1000 efgh
< PA 13193,1000 yz       7 out pass 1 @1  /7 in fix 1 T_WINDOW @1
  < PA 13193,1000 y
< PA 13194,1000 z        8 out pass 1 @1  /8 in fix 1 T_WINDOW @1
  < PA 13194,1000

# both sides: outbound octets after a FIN
run --both
opened
< FA 5001,1000 ab  4 out pass 1 @1  /4 in pass 1 @1
< PA 5003,1000 cd  5 out pass 1 @1  /5 in fix 1 T_END @1
  < PA 5003,1000
< FA 5004,1000     6 out pass 1 @1  /6 in fix 1 T_END @1
  < A 5004,1000
stream out 0 ab FIN

# both sides: an outbound header of which each field is rewritten
run --both
opened
< PA 5001,1000 abcd [opt=0xfe04aabb res=1 urg=2]  4 out pass 1 @1  /4 in fix 1 T_RES T_URG T_OPT @1
  < PA 5001,1000 abcd [opt=0x01010101]

# both sides: octets on an outbound SYN, and its answer
run --both
< S 5000 evil  1 out pass 1 @1 +1  /1 in fix 1 T_STRIP @1 +1
  < S 5000
> SA 999,5001  2 in pass 1 @1  /2 out pass 1 @1
< A 5001,1000  3 out pass 1 @1  /3 in pass 1 @1

# both sides: a second outbound SYN is a new connection for the first engine alone
run --both
opened
< S 7000        4 out pass 1 @2 +2 -1:reopened:0  /4 in drop 1 T_SYN @1
  < A 5000,1000
< SA 5000,1000  5 out pass 1 @3 +3 -2:reopened:0  /5 in pass 1 @1

# both sides: an outbound RST, with an outbound probe
run --both
opened
< R 5001       4 out pass 1 @1 -1:reset:0  /4 in fix 2 C_PROBE @1
  < R 5001
  < A 5000,1000
> A 1000,5001  5 in fix 1 C_PROBE  /5 out pass 1 @1
  > A 999,5001

# both sides: an outbound RST past the next octet
run --both
opened
< R 5004             4 out pass 1 @1 -1:reset:0  /4 in drop 0 T_RST @1
< PA 5001,1000 abcd  5 out pass 1 @2 +2  /5 in pass 1 @1

# both sides: an inbound RST and its probe are two records of the second engine
run --both
opened
> R 1000       4 in fix 2 C_PROBE @1  /4 out pass 1 @1 -1:reset:0  /5 out pass 1 @2 +2
  > R 1000
  > A 999,5001
< A 5001,1000  5 out pass 1 @1  /6 in pass 1 @2

# both sides: what the first engine drops is no record of the second
run --both
opened
> R 1003       4 in drop 0 T_RST @1
> S 7000       5 in drop 1 T_SYN @1  /4 out pass 1 @1
  > A 999,5001
> A 1000,5001  6 in pass 1 @1  /5 out pass 1 @1

# both sides: an outbound segment without a connection
run --both
< PA 5001,1000 abcd  1 out pass 1 @1 +1  /1 in fix 1 C_PROBE
  < A 5000,1000
> A 1000,5001        2 in pass 1 @1  /2 out pass 1 @1 +1
< PA 5001,1000 abcd  3 out pass 1 @1  /3 in pass 1 @1

# both sides: an outbound RST and a SYN ACK without a connection
run --both
< R 5001        1 out pass 1  /1 in drop 0 T_COLD
< SA 5000,1000  2 out pass 1 @1 +1  /2 in drop 0 T_COLD

# both sides: an outbound TTL equal to the number of routers, and one above it
run --both
< UDP 0x00359c40000ac6bf+hi [ttl=30]  1 out pass 1  /1 in fix 1 I_TTL
  < UDP 0x00359c40000ac6bf+hi [ttl=31]
< UDP 0x00359c40000ac6bf+hi [ttl=31]  2 out pass 1  /2 in pass 1

# both sides: an inbound TTL is raised by the first engine alone
run --both
> UDP $SUMMED [ttl=1]  1 in fix 1 I_TTL  /1 out pass 1
  > UDP $SUMMED [ttl=31]

# both sides: the reserved flag, options and octets after an outbound packet
run --both
< UDP 0x00359c40000ac6bf+hi [RF]                      1 out fix 1 I_RES  /1 in pass 1
  < UDP 0x00359c40000ac6bf+hi
< UDP 0x00359c40000ac6bf+hi [ttl=1 ipopt=0x01010101]  2 out fix 1 I_OPT  /2 in fix 1 I_TTL
  < UDP 0x00359c40000ac6bf+hi [ttl=31]
< UDP 0x00359c40000ac6bf+hi [trail=xyz]               3 out fix 1 I_TRAIL  /3 in pass 1
  < UDP 0x00359c40000ac6bf+hi

# both sides: wrong outbound checksums
run --both
< UDP 0x00359c40000a0001+hi  1 out drop 0 U_SUM
< A 5001,1000 [sum=0]        2 out drop 0 T_SUM

# both sides: outbound checksums that the network card would fill in
run --both --offload
< UDP 0x00359c40000a0001+hi  1 out fix 1 U_SUM_OUT  /1 in pass 1
  < UDP 0x00359c40000ac6bf+hi
< A 5001,1000 [sum=0]        2 out fix 1 T_SUM_OUT @1 +1  /2 in fix 1 C_PROBE
  < A 5000,1000

# both sides: a wrong inbound checksum with --offload
run --both --offload
> UDP 0x9c400035000a0001+hi  1 in drop 0 U_SUM

# both sides: outbound fragments with equal overlaps, and with one octet that differs
run --both
< UDP 0x00359c4000182402+a*8 [id=7 at=0+]  1 out hold 0 F_HELD
< UDP a*8 [id=7 at=8+]                     2 out hold 0 F_HELD
< UDP a*8 [id=7 at=16]                     3 out fix 1 F_DONE  /1 in pass 1
  < UDP 0x00359c4000182402+a*16 [id=7]
< UDP 0x00359c4000182402+a*8 [id=8 at=0+]  4 out hold 0 F_HELD
< UDP baaaaaaa [id=8 at=8+]                5 out drop 0 F_CLASH
< UDP a*8 [id=8 at=16]                     6 out hold 0 F_HELD

# both sides: an outbound segment in two fragments is judged as a whole by each engine
run --both
opened
< PA 5001,1000 abcd [res=1 id=9 ttl=2 part=0..16]  4 out hold 0 F_HELD
< PA 5001,1000 abcd [res=1 id=9 part=16..24]       5 out fix 1 F_DONE @1  /4 in fix 1 I_TTL T_RES @1
  < PA 5001,1000 abcd [id=9 ttl=31]

# both sides: ICMP errors that quote no connection
run --both
< ICMP $QUOTING      1 out pass 1  /1 in drop 0 M_QUOTE
> ICMP $UNREACHABLE  2 in drop 0 M_QUOTE

# both sides: ICMP errors that quote a live connection, and it in the other direction
run --both
opened
< ICMP $QUOTING      4 out pass 1  /4 in pass 1
> ICMP $UNREACHABLE  5 in pass 1  /5 out pass 1
< ICMP $UNREACHABLE  6 out pass 1  /6 in drop 0 M_QUOTE

# both sides: packets between two hosts of one side
run --both
> RAW 0x4500001c00010000401166ce0a0000010a000002000100020008ebd8  1 - drop 0 I_SIDE
> RAW 0x4500001c000100004011265ac6336407c6336408000100020008ab64  2 - drop 0 I_SIDE

# both sides: a full table of the second engine: a note, and a dropped SYN ACK
run --both --flows 1
opened
< PA 5001,1000 a             4 out pass 1 @1  /4 in pass 1 @1
> S 999 [port=40001]         5 in pass 1 @2 +2 -1:evicted:0  /5 out pass 1 T_FULL
< SA 5000,1000 [port=40001]  6 out pass 1 @2  /6 in drop 0 T_COLD

# both sides: each engine has its own quota and its own cells
run --both --quota 1
opened
< PA 5001,1000 a*300  4 out pass 1 @1  /4 in drop 0 T_QUOTA @1
< PA 5001,1000 a*256  5 out pass 1 @1  /5 in pass 1 @1
> PA 1000,5001 a*256  6 in pass 1 @1  /6 out pass 1 @1
> PA 1256,5001 a      7 in drop 0 T_QUOTA @1

# both sides: cells for outbound octets
run --both --cells 1
opened
< PA 5001,1000 a*300  4 out pass 1 @1  /4 in drop 0 T_ROOM @1
< PA 5001,1000 a*256  5 out pass 1 @1  /5 in pass 1 @1

# both sides: the time of the second engine advances by what the first one passes
run --both
> S 999                               1 in pass 1 @1 +1  /1 out pass 1 @1 +1
> RAW [t=3601]                        2 - drop 0 I_SHORT -1:idle:0
> UDP $SUMMED [t=3600]                3 in pass 1  /2 out pass 1
< UDP 0x00359c40000ac6bf+hi [t=3601]  4 out pass 1  /3 in pass 1 -1:idle:0

# both sides: a window scale on both SYNs counts in both directions
run --both
> S 999 [opt=0x01030301]                 1 in pass 1 @1 +1  /1 out pass 1 @1 +1
< SA 5000,1000 [win=4 opt=0x01030302]    2 out pass 1 @1  /2 in pass 1 @1
> A 1000,5001 [win=4]                    3 in pass 1 @1  /3 out pass 1 @1
< PA 5001,1000 abcdefghijklmnop [win=4]  4 out pass 1 @1  /4 in fix 1 T_WINDOW @1
  < PA 5001,1000 abcdefghi [win=4]
< A 5017,1000 [win=4]                    5 out pass 1 @1  /5 in pass 1 @1
> PA 1000,5001 abcdefghijklmnopqrst      6 in fix 1 T_WINDOW @1  /6 out pass 1 @1
  > PA 1000,5001 abcdefghijklmnopq
";
