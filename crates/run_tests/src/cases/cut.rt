//! Runs with an MTU of 576 octets: every host accepts packets of this length (RFC 791 section 3.1).

/// The cases, in the notation of `crate::cases`.
pub const CUT: &str = "\
# an inbound segment of 1,100 octets; only the last segment has PSH
run --mtu 576
opened
> PA 1000,5001 a*1100  4 in fix 3 E_CUT @1
  > A 1000,5001 a*536
  > A 1536,5001 a*536 [id=2]
  > PA 2072,5001 a*28 [id=3]

# a packet of 576 octets is not cut; one more octet gives a last segment with the FIN
run --mtu 576
opened
> PA 1000,5001 a*536  4 in pass 1 @1
> FA 1536,5001 a*537  5 in fix 2 E_CUT @1
  > A 1536,5001 a*536
  > FA 2072,5001 a [id=2]

# an outbound segment
run --mtu 576
opened
< PA 5001,1000 a*1100  4 out fix 3 E_CUT @1
  < A 5001,1000 a*536
  < A 5537,1000 a*536 [id=2]
  < PA 6073,1000 a*28 [id=3]

# a segment that is rewritten and cut
run --mtu 576
opened
> PA 1000,5001 a*1100 [res=1]  4 in fix 3 T_RES E_CUT @1
  > A 1000,5001 a*536
  > A 1536,5001 a*536 [id=2]
  > PA 2072,5001 a*28 [id=3]

# a long SYN is not cut
run --mtu 576
< S 5000 a*537  1 out drop 0 E_MTU @1 +1

# a long RST is not cut
run --mtu 576
opened
< R 5001 a*537  4 out drop 0 E_MTU @1 -1:reset:0

# a long segment with URG is not cut
run --mtu 576
opened
< PA 5001,1000 a*537 [urg=1]  4 out drop 0 E_MTU @1

# a long UDP message is not cut
run --mtu 576
> UDP 0x9c40003502440000+0x00*572  1 in drop 0 E_MTU

# a UDP message of 576 octets
run --mtu 576
> UDP 0x9c400035022c0000+0x00*548  1 in pass 1

# a long UDP message with the reserved flag
run --mtu 576
> UDP 0x9c40003502430000+0x00*571 [tos=1 RF]  1 in drop 0 I_RES E_MTU

# without an MTU long packets pass
opened
> PA 1000,5001 a*1100              4 in pass 1 @1
> UDP 0x9c40003502440000+0x00*572  5 in pass 1

# a UDP message of 600 octets
run --mtu 576
> UDP 0x9c40003502445fea+a*572  1 in drop 0 E_MTU
";
