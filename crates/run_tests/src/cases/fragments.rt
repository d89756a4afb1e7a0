//! Fragments of datagrams and of segments.

/// The cases, in the notation of `crate::cases`.
pub const FRAGMENTS: &str = "\
# fragments with equal overlaps, and with one octet that differs
> UDP $PLAIN [id=7 part=0..16]   1 in hold 0 F_HELD
> UDP $PLAIN [id=7 part=8..16]   2 in hold 0 F_HELD
> UDP $PLAIN [id=7 part=16..24]  3 in fix 1 F_DONE
  > UDP $PLAIN [id=7]
> UDP $PLAIN [id=8 part=0..16]   4 in hold 0 F_HELD
> UDP $OTHER [id=8 part=8..16]   5 in drop 0 F_CLASH
> UDP $PLAIN [id=8 part=16..24]  6 in hold 0 F_HELD

# fragments in any order, each twice; a fragment after a complete datagram begins another one
> UDP $PLAIN [id=7 part=16..24]  1 in hold 0 F_HELD
> UDP $PLAIN [id=7 part=8..16]   2 in hold 0 F_HELD
> UDP $PLAIN [id=7 part=16..24]  3 in hold 0 F_HELD
> UDP $PLAIN [id=7 part=0..8]    4 in fix 1 F_DONE
  > UDP $PLAIN [id=7]
> UDP $PLAIN [id=7 part=0..8]    5 in hold 0 F_HELD
> UDP $PLAIN [id=7 part=8..24]   6 in fix 1 F_DONE
  > UDP $PLAIN [id=7]

# after a clash the next fragment begins the datagram again
> UDP $PLAIN [id=7 part=0..16]  1 in hold 0 F_HELD
> UDP $OTHER [id=7 part=8..24]  2 in drop 0 F_CLASH
> UDP $OTHER [id=7 part=8..24]  3 in hold 0 F_HELD
> UDP $PLAIN [id=7 part=0..8]   4 in fix 1 F_DONE
  > UDP $OTHER [id=7]

# the fragments of two datagrams alternate
> UDP $PLAIN [id=7 part=0..16]   1 in hold 0 F_HELD
> UDP $OTHER [id=8 part=16..24]  2 in hold 0 F_HELD
> UDP $PLAIN [id=7 part=16..24]  3 in fix 1 F_DONE
  > UDP $PLAIN [id=7]
> UDP $OTHER [id=8 part=0..16]   4 in fix 1 F_DONE
  > UDP $OTHER [id=8]

# fragments of another protocol or of the other direction belong to other datagrams
> UDP $PLAIN [id=7 part=0..16]         1 in hold 0 F_HELD
> ICMP 0x0000ffff+0x00*4 [id=7 at=16]  2 in hold 0 F_HELD
< UDP $PLAIN [id=7 part=16..24]        3 out hold 0 F_HELD
> UDP $PLAIN [id=7 part=16..24]        4 in fix 1 F_DONE
  > UDP $PLAIN [id=7]
< UDP $PLAIN [id=7 part=0..16]         5 out fix 1 F_DONE
  < UDP $PLAIN [id=7]

# at most one datagram in reassembly
run --frags 1
> UDP $PLAIN [id=7 part=0..16]   1 in hold 0 F_HELD
> UDP $PLAIN [id=8 part=0..16]   2 in drop 0 F_MANY
> UDP $PLAIN [id=7 part=16..24]  3 in fix 1 F_DONE
  > UDP $PLAIN [id=7]
> UDP $PLAIN [id=8 part=16..24]  4 in hold 0 F_HELD
> UDP $PLAIN [id=8 part=0..16]   5 in fix 1 F_DONE
  > UDP $PLAIN [id=8]

# the longest datagram takes all 256 cells
run --frag-cells 256
> ICMP 0x0000ffff+0x00*65500 [id=7 at=0+]  1 in hold 0 F_HELD
> UDP $PLAIN [id=8 part=16..24]            2 in drop 0 F_ROOM
> ICMP 0x00*11 [id=7 at=65504]             3 in fix 1 F_DONE
  > ICMP 0x0000ffff+0x00*65511 [id=7]
> UDP $PLAIN [id=8 part=16..24]            4 in hold 0 F_HELD

# fragments in held blocks need no cell, another block needs one
run --frag-cells 256
> ICMP 0x0000ffff+0x00*65276 [id=7 at=0+]  1 in hold 0 F_HELD
> UDP a*9 [id=8 at=248]                    2 in drop 0 F_ROOM
> UDP a*8 [id=8 at=248+]                   3 in hold 0 F_HELD
> UDP a*8 [id=8 at=240+]                   4 in hold 0 F_HELD
> UDP a [id=8 at=256]                      5 in drop 0 F_ROOM
> ICMP a [id=7 at=65280]                   6 in drop 0 F_ROOM

# a datagram is forgotten more than a second after its first fragment
run --frag-time 1
> UDP $PLAIN [id=7 part=0..16]       1 in hold 0 F_HELD
> UDP $PLAIN [id=8 part=0..16]       2 in hold 0 F_HELD
> UDP $PLAIN [id=8 part=16..24 t=1]  3 in fix 1 F_DONE
  > UDP $PLAIN [id=8 t=1]
> UDP $PLAIN [id=7 part=8..16 t=1]   4 in hold 0 F_HELD
> UDP $PLAIN [id=7 part=16..24 t=2]  5 in hold 0 F_HELD
> UDP $PLAIN [id=7 part=0..16 t=3]   6 in fix 1 F_DONE
  > UDP $PLAIN [id=7 t=3]

# each record may advance the time, and none sets it back
run --frag-time 1
> UDP $PLAIN [id=7 part=0..16]   1 in hold 0 F_HELD
> IGMP [t=2]                     2 in drop 0 P_PROTO
> UDP $PLAIN [id=7 part=16..24]  3 in hold 0 F_HELD

# a complete datagram that a rule drops is no longer held
> UDP $WRONG [id=7 part=0..8]   1 in hold 0 F_HELD
> UDP $WRONG [id=7 part=8..10]  2 in drop 0 U_SUM
> UDP $WRONG [id=7 part=8..10]  3 in hold 0 F_HELD
> UDP $SUMMED [id=7 part=0..8]  4 in fix 1 F_DONE
  > UDP $SUMMED [id=7]

# an outbound UDP checksum of a datagram is computed again with --offload
run --offload
< UDP $WRONG [id=7 part=8..10]  1 out hold 0 F_HELD
< UDP $WRONG [id=7 part=0..8]   2 out fix 1 F_DONE U_SUM_OUT
  < UDP $SUMMED [id=7]

# an inbound UDP checksum of a datagram is not
run --offload
> UDP $WRONG [id=7 part=8..10]  1 in hold 0 F_HELD
> UDP $WRONG [id=7 part=0..8]   2 in drop 0 U_SUM

# a reassembled ICMP message with a wrong checksum, and one of a type that is dropped
> ICMP 0x0000ffff0000000001 [id=7 part=0..8]  1 in hold 0 F_HELD
> ICMP 0x0000ffff0000000001 [id=7 part=8..9]  2 in drop 0 M_SUM
> ICMP 0x0500faff0000000000 [id=7 part=0..8]  3 in hold 0 F_HELD
> ICMP 0x0500faff0000000000 [id=7 part=8..9]  4 in drop 0 M_TYPE

# a fragment with DF at an offset above 0 is dropped, at offset 0 it is held
> UDP $PLAIN [id=7 part=0..16 DF]   1 in hold 0 F_HELD
> UDP $PLAIN [id=7 part=16..24 DF]  2 in drop 0 F_DF
> UDP $PLAIN [id=7 part=16..24]     3 in fix 1 F_DONE
  > UDP $PLAIN [id=7 DF]

# only the first rule that applies to a fragment is named
> UDP [id=7 at=8 DF]         1 in drop 0 F_DF
> UDP [id=7 at=8]            2 in drop 0 F_EMPTY
> UDP [id=7 at=0+]           3 in drop 0 F_EMPTY
> UDP a*9 [id=7 at=0+]       4 in drop 0 F_ALIGN
> UDP aaaa [id=7 at=65512+]  5 in drop 0 F_ALIGN
> UDP a*8 [id=7 at=65512+]   6 in drop 0 F_BIG

# the longest datagram ends at offset 65,515
> UDP aaa [id=7 at=65512]   1 in hold 0 F_HELD
> UDP aaaa [id=8 at=65512]  2 in drop 0 F_BIG

# a fragment past the end of the last fragment; the datagram is forgotten
> UDP $PLAIN [id=7 part=16..24]  1 in hold 0 F_HELD
> UDP b*16 [id=7 at=16+]         2 in drop 0 F_END
> UDP $PLAIN [id=7 part=0..16]   3 in hold 0 F_HELD
> UDP $PLAIN [id=7 part=16..24]  4 in fix 1 F_DONE
  > UDP $PLAIN [id=7]

# a last fragment that ends elsewhere than the held one, and one that ends before a held octet
> UDP $PLAIN [id=7 part=16..24]  1 in hold 0 F_HELD
> UDP a*8 [id=7 at=8]            2 in drop 0 F_END
> UDP a*8 [id=7 at=16+]          3 in hold 0 F_HELD
> UDP a*8 [id=7 at=8]            4 in drop 0 F_END
> UDP $PLAIN [id=7 part=0..16]   5 in hold 0 F_HELD
> UDP a*8 [id=7 at=16+]          6 in hold 0 F_HELD
> UDP a*8 [id=7 at=16]           7 in fix 1 F_DONE
  > UDP $PLAIN [id=7]

# a last fragment that ends one octet before the end of another one, and at it
> UDP a*8 [id=7 at=8+]  1 in hold 0 F_HELD
> UDP a*7 [id=7 at=8]   2 in drop 0 F_END
> UDP a*8 [id=7 at=8+]  3 in hold 0 F_HELD
> UDP a*8 [id=7 at=8]   4 in hold 0 F_HELD
> UDP a*7 [id=7 at=8]   5 in drop 0 F_END

# rules on the header are tested before those on fragments
> UDP $PLAIN [id=7 part=0..16 ipopt=0x83030400]  1 in drop 0 I_ROUTE
> IGMP $PLAIN [id=7 part=0..16]                  2 in drop 0 P_PROTO
> UDP $PLAIN [id=7 part=16..24]                  3 in hold 0 F_HELD

# of the rules that rewrite fragments only those of the completing fragment are named
> UDP $PLAIN [id=7 part=0..16]                                      1 in hold 0 F_HELD
> UDP $PLAIN [id=7 part=16..24 ttl=1 RF ipopt=0x01010101 trail=zz]  2 in fix 1 I_TRAIL I_OPT I_RES F_DONE
  > UDP $PLAIN [id=7]

# the reserved flag of the first fragment is not named
> UDP $PLAIN [id=7 part=16..24 ttl=1 RF ipopt=0x01010101 trail=zz]  1 in hold 0 F_HELD
> UDP $PLAIN [id=7 part=0..16]                                      2 in fix 1 F_DONE
  > UDP $PLAIN [id=7]

# the TTL is that of the first fragment at offset 0
> UDP $PLAIN [id=7 part=8..16 ttl=9 tos=1]      1 in hold 0 F_HELD
> UDP $PLAIN [id=7 part=0..8 ttl=30 tos=2]      2 in hold 0 F_HELD
> UDP $PLAIN [id=7 part=0..16 ttl=70 tos=3 DF]  3 in hold 0 F_HELD
> UDP $PLAIN [id=7 part=16..24 ttl=80 tos=4]    4 in fix 1 I_TTL F_DONE
  > UDP $PLAIN [id=7 ttl=31 tos=2]

# TTL and type of service are those of the first fragment at offset 0, in any order
> UDP $PLAIN [id=7 part=16..24 ttl=1 tos=1]     1 in hold 0 F_HELD
> UDP $PLAIN [id=7 part=0..16 ttl=31 tos=2 DF]  2 in fix 1 F_DONE
  > UDP $PLAIN [id=7 ttl=31 tos=2 DF]

# an outbound TTL is unchanged
< UDP $PLAIN [id=7 part=0..16 ttl=1]     1 out hold 0 F_HELD
< UDP $PLAIN [id=7 part=16..24 trail=z]  2 out fix 1 I_TRAIL F_DONE
  < UDP $PLAIN [id=7 ttl=1]

# a segment in three fragments; the last one names the era
opened
> PA 1000,5001 abcdefghijkl [id=7 part=16..32]  4 in hold 0 F_HELD
> PA 1000,5001 abcdefghijkl [id=7 part=0..8]    5 in hold 0 F_HELD
> PA 1000,5001 abcdefghijkl [id=7 part=8..16]   6 in fix 1 F_DONE @1
  > PA 1000,5001 abcdefghijkl [id=7]

# a reassembled segment that clashes with an earlier one, and a segment that clashes with it
opened
> PA 1000,5001 abcd                         4 in pass 1 @1
> PA 1000,5001 abXdefgh [id=7 part=0..24]   5 in hold 0 F_HELD
> PA 1000,5001 abXdefgh [id=7 part=24..28]  6 in fix 1 F_DONE T_CLASH @1
  > PA 1000,5001 abcdefgh [id=7]
> PA 1002,5001 cdEFgh                       7 in fix 1 T_CLASH @1
  > PA 1002,5001 cdefgh

# held fragments belong to no era: another segment sends the same offsets first
opened
> PA 1000,5001 evil [id=7 part=0..16]   4 in hold 0 F_HELD
> PA 1000,5001 good                     5 in pass 1 @1
< A 5001,1004                           6 out pass 1 @1
> PA 1000,5001 evil [id=7 part=16..24]  7 in fix 1 F_DONE T_OLD @1
  > PA 1000,5001 [id=7]

# fragments open a connection in both directions
> S 999 [id=7 part=0..16]          1 in hold 0 F_HELD
> S 999 [id=7 part=16..20]         2 in fix 1 F_DONE @1 +1
  > S 999 [id=7]
< SA 5000,1000 [id=7 part=16..20]  3 out hold 0 F_HELD
< SA 5000,1000 [id=7 part=0..16]   4 out fix 1 F_DONE @1
  < SA 5000,1000 [id=7]
> PA 1000,5001 abcd                5 in pass 1 @1

# a probe for a reassembled segment without a connection
> PA 1000,5001 abcd [id=7 part=0..16]   1 in hold 0 F_HELD
> PA 1000,5001 abcd [id=7 part=16..24]  2 in fix 1 F_DONE C_PROBE
  > A 999,5001 [id=7]

# a probe for a reassembled second SYN
opened
> S 7000 [id=7 part=8..20 ttl=1]  4 in hold 0 F_HELD
> S 7000 [id=7 part=0..8]         5 in drop 1 T_SYN @1
  > A 999,5001 [id=7]

# a wrong checksum of a reassembled segment
opened
> PA 1000,5001 evil [id=7 part=0..16 wrongsum]   4 in hold 0 F_HELD
> PA 1000,5001 evil [id=7 part=16..24 wrongsum]  5 in drop 0 T_SUM
> PA 1000,5001 good                              6 in pass 1 @1

# a checksum of a reassembled segment that the network card has not yet filled in
run --offload
< A 5001,1000 [id=7 part=0..16 sum=0]   1 out hold 0 F_HELD
< A 5001,1000 [id=7 part=16..20 sum=0]  2 out fix 1 F_DONE T_SUM_OUT @1 +1
  < A 5001,1000 [id=7]

# with a full table the note precedes the rules that rewrite
run --flows 1
opened
> PA 1000,5001 a                        4 in pass 1 @1
< S 7000 [port=40003 id=7 part=0..16]   5 out hold 0 F_HELD
< S 7000 [port=40003 id=7 part=16..20]  6 out fix 1 T_FULL F_DONE
  < S 7000 [port=40003 id=7]
> S 999 [port=40003 id=7 part=0..16]    7 in hold 0 F_HELD
> S 999 [port=40003 id=7 part=16..20]   8 in drop 0 T_FULL

# an ICMP error that quotes a live connection, in two fragments
opened
> ICMP $UNREACHABLE [id=7 part=0..16]   4 in hold 0 F_HELD
> ICMP $UNREACHABLE [id=7 part=16..36]  5 in fix 1 F_DONE
  > ICMP $UNREACHABLE [id=7]

# an ICMP error that quotes none, in two fragments
> ICMP $UNREACHABLE [id=7 part=16..36]  1 in hold 0 F_HELD
> ICMP $UNREACHABLE [id=7 part=0..16]   2 in drop 0 M_QUOTE

# fragments that end at the greatest offset, and past it
> UDP abc [id=7 at=65512]   1 in hold 0 F_HELD
> UDP abcd [id=8 at=65512]  2 in drop 0 F_BIG

# a second datagram where one may be in reassembly
run --frags 1
> UDP 0x6161616161616161 [id=7 at=0+]  1 in hold 0 F_HELD
> UDP 0x6161616161616161 [id=8 at=0+]  2 in drop 0 F_MANY

# fragments exactly at the time limit, and one second later
> UDP 0x9c40003500182402+a*8 [id=7 at=0+]  1 in hold 0 F_HELD
> UDP 0x9c40003500182402+a*8 [id=8 at=0+]  2 in hold 0 F_HELD
> UDP a*8 [id=7 at=16 t=30]                3 in fix 1 F_DONE
  > UDP 0x9c40003500182402+a*16 [id=7 t=30]
> UDP a*8 [id=8 at=16 t=31]                4 in hold 0 F_HELD

# a fragment past the end makes the datagram forgotten
> UDP a*8 [id=7 at=16]                     1 in hold 0 F_HELD
> UDP a*8 [id=7 at=24+]                    2 in drop 0 F_END
> UDP 0x9c40003500182402+a*8 [id=7 at=0+]  3 in hold 0 F_HELD

# a last fragment that ends before octets that are held
> UDP a*16 [id=7 at=16+]  1 in hold 0 F_HELD
> UDP a*8 [id=7 at=16]    2 in drop 0 F_END

# TTL, type of service and DF are those of the first fragment at offset 0
> UDP a*8 [id=7 ttl=200 tos=3 at=16]                       1 in hold 0 F_HELD
> UDP 0x9c40003500182402+a*8 [id=7 ttl=30 tos=9 DF at=0+]  2 in fix 1 I_TTL F_DONE
  > UDP 0x9c40003500182402+a*16 [id=7 ttl=31 tos=9 DF]

# a segment in two fragments is judged as a whole
opened
> PA 1000,5001 abcd [res=1 id=9 part=0..16]   4 in hold 0 F_HELD
> PA 1000,5001 abcd [res=1 id=9 part=16..24]  5 in fix 1 F_DONE T_RES @1
  > PA 1000,5001 abcd [id=9]

# cells of fragments
run --frag-cells 256
> UDP 0x6161616161616161+a*65016 [at=0+]     1 in hold 0 F_HELD
> UDP 0x6161616161616161+a*248 [id=2 at=0+]  2 in hold 0 F_HELD
> UDP a*264 [id=2 at=256+]                   3 in drop 0 F_ROOM
> UDP a*256 [id=2 at=256+]                   4 in hold 0 F_HELD

# as many cells of fragments as there are by default, and one more
> UDP 0x6161616161616161+a*65272 [id=0 at=0+]   1 in hold 0 F_HELD
> UDP 0x6161616161616161+a*65272 [at=0+]        2 in hold 0 F_HELD
> UDP 0x6161616161616161+a*65272 [id=2 at=0+]   3 in hold 0 F_HELD
> UDP 0x6161616161616161+a*65272 [id=3 at=0+]   4 in hold 0 F_HELD
> UDP 0x6161616161616161+a*65272 [id=4 at=0+]   5 in hold 0 F_HELD
> UDP 0x6161616161616161+a*65272 [id=5 at=0+]   6 in hold 0 F_HELD
> UDP 0x6161616161616161+a*65272 [id=6 at=0+]   7 in hold 0 F_HELD
> UDP 0x6161616161616161+a*65272 [id=7 at=0+]   8 in hold 0 F_HELD
> UDP 0x6161616161616161+a*65272 [id=8 at=0+]   9 in hold 0 F_HELD
> UDP 0x6161616161616161+a*65272 [id=9 at=0+]   10 in hold 0 F_HELD
> UDP 0x6161616161616161+a*65272 [id=10 at=0+]  11 in hold 0 F_HELD
> UDP 0x6161616161616161+a*65272 [id=11 at=0+]  12 in hold 0 F_HELD
> UDP 0x6161616161616161+a*65272 [id=12 at=0+]  13 in hold 0 F_HELD
> UDP 0x6161616161616161+a*65272 [id=13 at=0+]  14 in hold 0 F_HELD
> UDP 0x6161616161616161+a*65272 [id=14 at=0+]  15 in hold 0 F_HELD
> UDP 0x6161616161616161+a*65272 [id=15 at=0+]  16 in hold 0 F_HELD
> UDP 0x6161616161616161+a*4088 [id=16 at=0+]   17 in hold 0 F_HELD
> UDP 0x6161616161616161 [id=17 at=0+]          18 in drop 0 F_ROOM

# a fragment that ends with a block takes no other block
run --frag-cells 256
> UDP 0x6161616161616161+a*65272 [at=0+]  1 in hold 0 F_HELD
> UDP 0x6161616161616161 [id=2 at=0+]     2 in hold 0 F_HELD
> UDP 0x6161616161616161 [id=3 at=0+]     3 in drop 0 F_ROOM

# a fragment with its last octet in another block
run --frag-cells 256
> UDP 0x6161616161616161+a*65016 [at=0+]  1 in hold 0 F_HELD
> UDP a*9 [id=2 at=248]                   2 in hold 0 F_HELD
> UDP 0x6161616161616161 [id=3 at=0+]     3 in drop 0 F_ROOM

# the greatest offset of a fragment, with DF and without
> UDP a*8 [DF at=65528+]  1 in drop 0 F_DF
> UDP a*8 [at=65528+]     2 in drop 0 F_BIG

# a datagram has the link header of the fragment that completes it
ethernet
> UDP $PLAIN [mac=1 id=7 part=0..8]    1 in hold 0 F_HELD
> UDP $PLAIN [mac=2 id=7 part=16..24]  2 in hold 0 F_HELD
> UDP $PLAIN [mac=3 id=7 part=8..16]   3 in fix 1 F_DONE
  > UDP $PLAIN [mac=3 id=7]

# fragments in padded frames
ethernet
> UDP $PLAIN [mac=1 id=7 part=0..16 trail=0x00*10]   1 in hold 0 F_HELD
> UDP $PLAIN [mac=2 id=7 part=16..24 trail=0x00*18]  2 in fix 1 I_TRAIL F_DONE
  > UDP $PLAIN [mac=2 id=7]

# a probe has the link header of the fragment that completes its segment
ethernet
> PA 1000,5001 abcd [mac=1 id=7 part=16..24 ttl=1]  1 in hold 0 F_HELD
> PA 1000,5001 abcd [mac=2 id=7 part=0..16 ttl=40]  2 in fix 1 F_DONE C_PROBE
  > A 999,5001 [mac=2 id=7 ttl=40]
";
