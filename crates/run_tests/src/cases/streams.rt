//! Two eras of one four-tuple, senders that contradict nobody, and octets that are not in the
//! stream.

/// The cases, in the notation of `crate::cases`.
pub const STREAMS: &str = "\
# an idle end after which nothing is written again
opened
> PA 1000,5001 abcd               4 in pass 1 @1
< A 5001,1004                     5 out pass 1 @1
< A 5001,1004 [t=3601]            6 out pass 1 @2 +2 -1:idle:4
> PA 1000,5001 wxyzefgh [t=3601]  7 in fix 1 T_OLD @2
  > PA 1004,5001 efgh [t=3601]

# an idle end with octets that nobody acknowledged
opened
> PA 1000,5001 abcd           4 in pass 1 @1
< A 5001,1000 [t=3601]        5 out pass 1 @2 +2 -1:idle:4
> PA 1000,5001 wxyz [t=3601]  6 in pass 1 @2

# an eviction with a FIN that nobody acknowledged
run --flows 1
opened
> PA 1000,5001 abcd   4 in pass 1 @1
< A 5001,1004         5 out pass 1 @1
> FA 1004,5001        6 in pass 1 @1
> S 999 [port=40001]  7 in pass 1 @2 +2 -1:evicted:4
< A 5001,1004         8 out pass 1 @3 +3 -2:evicted:0
> PA 1004,5001 more   9 in pass 1 @3

# a late acknowledgment begins an era below what was acknowledged
opened
> PA 1000,5001 abcd           4 in pass 1 @1
< A 5001,1004                 5 out pass 1 @1
< A 5001,1000 [t=3601]        6 out pass 1 @2 +2 -1:idle:4
> PA 1000,5001 wxyz [t=3601]  7 in pass 1 @2

# sequence numbers repeat after 2^32 octets that were acknowledged and never seen
opened
> PA 1000,5001 abcd           4 in pass 1 @1
< A 5001,1004                 5 out pass 1 @1
< A 5001,1004 [t=3601]        6 out pass 1 @2 +2 -1:idle:4
< A 5001,2147484651 [t=3601]  7 out pass 1 @2
< A 5001,1002 [t=3601]        8 out pass 1 @2
> PA 1002,5001 wx [t=3601]    9 in pass 1 @2

# acknowledged octets that are sent again
opened
> PA 1000,5001 abcd  4 in pass 1 @1
< A 5001,1004        5 out pass 1 @1
> PA 1000,5001 abcd  6 in fix 1 T_OLD @1
  > PA 1000,5001

# a sender that resets and uses its port again
opened
> PA 1000,5001 abcd  4 in pass 1 @1
> R 1004             5 in fix 2 C_PROBE @1
  > R 1004
  > A 999,5001
> S 70000            6 in drop 1 T_SYN @1
  > A 999,5001

# an octet past the window, and another one once the window has room
> S 999                  1 in pass 1 @1 +1
< SA 5000,1000 [win=4]   2 out pass 1 @1
> A 1000,5001            3 in pass 1 @1
> PA 1000,5001 abcdeXY   4 in fix 1 T_WINDOW @1
  > PA 1000,5001 abcde
< A 5001,1000 [win=100]  5 out pass 1 @1
> PA 1005,5001 fg        6 in pass 1 @1

# an octet that was replaced is not in the stream
opened
> PA 1000,5001 abcd  4 in pass 1 @1
> PA 1000,5001 abXd  5 in fix 1 T_CLASH @1
  > PA 1000,5001 abcd
> PA 1000,5001 abcd  6 in pass 1 @1

# a wrong checksum between other addresses
opened
> RAW 0x4500001e0001000040114692c63364080a0000019c400035000a00016869  4 in drop 0 U_SUM
> PA 1000,5001 abcd                                                   5 in pass 1 @1
";
