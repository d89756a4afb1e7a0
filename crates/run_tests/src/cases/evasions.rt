//! Evasions of Handley, Paxson and Kreibich (USENIX Security 2001), with the streams that receivers
//! of each policy deliver.

/// The cases, in the notation of `crate::cases`.
pub const EVASIONS: &str = "\
# overlapping segments out of order that differ
opened
> PA 1002,5001 cdef    4 in pass 1 @1
> PA 1000,5001 abXXgh  5 in fix 1 T_CLASH @1
  > PA 1000,5001 abcdef
stream 0 abcdef

# a TTL that does not reach the host
opened
> PA 1000,5001 bad! [ttl=1]  4 in fix 1 I_TTL @1
  > PA 1000,5001 bad! [ttl=31]
> PA 1000,5001 good          5 in fix 1 T_CLASH @1
  > PA 1000,5001 bad!
stream 0 bad!

# an urgent octet, which some hosts remove from the stream
opened
> PA 1000,5001 abcd [urg=1]  4 in fix 1 T_URG @1
  > PA 1000,5001 abcd
stream 0 abcd

# a RST that some hosts accept
opened
> R 1003             4 in drop 0 T_RST @1
> PA 1000,5001 abcd  5 in pass 1 @1
stream 0 abcd

# a wrong checksum
opened
> PA 1000,5001 evil [wrongsum]  4 in drop 0 T_SUM
> PA 1000,5001 good             5 in pass 1 @1
stream 0 good

# reserved bits
opened
> PA 1000,5001 abcd [res=5]  4 in fix 1 T_RES @1
  > PA 1000,5001 abcd
stream 0 abcd

# octets on a SYN
> S 999 evil         1 in fix 1 T_STRIP @1 +1
  > S 999
< SA 5000,1000       2 out pass 1 @1
> A 1000,5001        3 in pass 1 @1
> PA 1000,5001 good  4 in pass 1 @1
stream 0 good

# octets past the FIN
opened
> FA 1000,5001       4 in pass 1 @1
> PA 1000,5001 abcd  5 in fix 1 T_END @1
  > PA 1000,5001
stream 0 FIN

# octets past the window
opened
> PA 10000,5001 zz  4 in fix 1 T_WINDOW @1
  > PA 10000,5001
stream 0

# overlapping fragments differ in the TCP header, with an unchanged checksum
opened
> PA 1000,5001 abcd [id=7 part=0..16]                4 in hold 0 F_HELD
> PA 1000,16782217 abcd [id=7 part=8..24 sum=58052]  5 in drop 0 F_CLASH
stream 0

# overlapping fragments differ in octets whose sum is the same in either order
opened
> PA 1000,5001 evilgood_and_so_on [id=7 part=0..32]   4 in hold 0 F_HELD
> PA 1000,5001 goodevil_and_so_on [id=7 part=16..38]  5 in drop 0 F_CLASH
> PA 1000,5001 good [id=7 part=0..16]                 6 in hold 0 F_HELD
> PA 1000,5001 good [id=7 part=16..24]                7 in fix 1 F_DONE @1
  > PA 1000,5001 good [id=7]
stream 0 good

# options of the IPv4 header: no-operations, and a source route
opened
> PA 1000,5001 abcd [ipopt=0x01010101]  4 in fix 1 I_OPT @1
  > PA 1000,5001 abcd
> PA 1000,5001 abcd [ipopt=0x83030400]  5 in drop 0 I_ROUTE
stream 0 abcd

# octets that the host has acknowledged
opened
> PA 1004,5001 efgh  4 in pass 1 @1
< A 5001,1008        5 out pass 1 @1
> PA 1000,5001 abcd  6 in fix 1 T_OLD @1
  > PA 1000,5001
stream 0
stream 4 efgh

# a flood of SYNs with two live eras
run --flows 2
> S 999               1 in pass 1 @1 +1
> S 999 [port=40001]  2 in pass 1 @2 +2
> S 999 [port=40002]  3 in pass 1 @3 +3 -1:evicted:0
> S 999 [port=40003]  4 in pass 1 @4 +4 -2:evicted:0
> S 999 [port=40004]  5 in pass 1 @5 +5 -3:evicted:0
> S 999 [port=40005]  6 in pass 1 @6 +6 -4:evicted:0
> S 999 [port=40006]  7 in pass 1 @7 +7 -5:evicted:0
> S 999 [port=40007]  8 in pass 1 @8 +8 -6:evicted:0
> S 999 [port=40008]  9 in pass 1 @9 +9 -7:evicted:0
> S 999 [port=40009]  10 in pass 1 @10 +10 -8:evicted:0
stream 0

# RSTs at the first and the last sequence number that is accepted, and outside of them
opened
> PA 1000,5001 abcd  4 in pass 1 @1
< A 5001,1002        5 out pass 1 @1
> R 1001             6 in drop 0 T_RST @1
> R 1002             7 in fix 2 C_PROBE @1
  > R 1002
  > A 1001,5001
> R 1004             8 in fix 2 C_PROBE @1
  > R 1004
  > A 1001,5001
> R 1005             9 in drop 0 T_RST @1
";
