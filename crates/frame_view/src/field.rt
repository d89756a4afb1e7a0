//! The fields of a frame.
ghost use Rattle.std.specs.Prelude.{◌≡◌};
ghost use Rattle.frame_view.specs.Readings.{field_name, fields};

/// A field of a frame, in the order of the headers.
#[derive(Clone, Copy, Debug, PartialEq, Eq)]
pub enum Field {
    /// The octets before the packet.
    LinkHeader,
    Version,
    /// In octets.
    HeaderLength,
    TypeOfService,
    /// In octets, header included.
    TotalLength,
    Identification,
    ReservedBit,
    DontFragment,
    MoreFragments,
    /// In octets.
    FragmentOffset,
    /// The time to live, in hops.
    Ttl,
    Protocol,
    HeaderChecksum,
    Source,
    Destination,
    IpOptions,
    SourcePort,
    DestinationPort,
    Sequence,
    Acknowledgment,
    /// The length of the TCP header in octets.
    DataOffset,
    /// The four bits between the data offset and the flags.
    Reserved,
    Flags,
    Window,
    /// The checksum of the TCP or UDP header.
    Checksum,
    UrgentPointer,
    TcpOptions,
    /// In octets, header included.
    UdpLength,
    /// The octets after the last header that can be read.
    Payload,
    /// The octets after the total length.
    Trailer,
}

/// All fields, in order.
pub(crate) const FIELDS: [Field; 30] = [
    Field::LinkHeader,
    Field::Version,
    Field::HeaderLength,
    Field::TypeOfService,
    Field::TotalLength,
    Field::Identification,
    Field::ReservedBit,
    Field::DontFragment,
    Field::MoreFragments,
    Field::FragmentOffset,
    Field::Ttl,
    Field::Protocol,
    Field::HeaderChecksum,
    Field::Source,
    Field::Destination,
    Field::IpOptions,
    Field::SourcePort,
    Field::DestinationPort,
    Field::Sequence,
    Field::Acknowledgment,
    Field::DataOffset,
    Field::Reserved,
    Field::Flags,
    Field::Window,
    Field::Checksum,
    Field::UrgentPointer,
    Field::TcpOptions,
    Field::UdpLength,
    Field::Payload,
    Field::Trailer,
];

impl Field {
    /// Returns the name of the field.
    pub fn name(self) -> &'static str
        ensures { result.now ≡ field_name self }
    {
        match self {
            Field::LinkHeader => "link",
            Field::Version => "version",
            Field::HeaderLength => "header_length",
            Field::TypeOfService => "type_of_service",
            Field::TotalLength => "total_length",
            Field::Identification => "identification",
            Field::ReservedBit => "reserved_bit",
            Field::DontFragment => "dont_fragment",
            Field::MoreFragments => "more_fragments",
            Field::FragmentOffset => "fragment_offset",
            Field::Ttl => "ttl",
            Field::Protocol => "protocol",
            Field::HeaderChecksum => "header_checksum",
            Field::Source => "source",
            Field::Destination => "destination",
            Field::IpOptions => "ip_options",
            Field::SourcePort => "source_port",
            Field::DestinationPort => "destination_port",
            Field::Sequence => "sequence",
            Field::Acknowledgment => "acknowledgment",
            Field::DataOffset => "data_offset",
            Field::Reserved => "reserved",
            Field::Flags => "flags",
            Field::Window => "window",
            Field::Checksum => "checksum",
            Field::UrgentPointer => "urgent_pointer",
            Field::TcpOptions => "tcp_options",
            Field::UdpLength => "udp_length",
            Field::Payload => "payload",
            Field::Trailer => "trailer",
        }
    }
}
