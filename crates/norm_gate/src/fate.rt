//! What becomes of a frame.
ghost use Rattle.std.specs.Prelude.{◌≡◌, ◌≤◌, ◌==◌, All, length};
ghost use Rattle.wire_base.specs.Frames.{packet_in};
ghost use Rattle.wire_base.specs.declared.address.Link.TheVariants.{Ethernet};
ghost use Rattle.norm_settings.specs.SettingValues.{plain_settings};
ghost use Rattle.norm_settings.specs.Side as side;
ghost use Rattle.norm_gate.specs.Fates as spec;

use crate::arp::{address_judged, is_arp_of_ipv4};
use crate::{Arrival, Frames, Port};
use norm_settings::Settings;
use wire_base::{Addr, FrameKind, Link, MAX_FRAME, Prefix, frame_kind, packet_in, u32_at};

/// What becomes of a frame.
#[derive(Clone, Copy, Debug, PartialEq, Eq)]
pub enum Fate {
    /// The engine judges it: it is a record.
    Judged,
    /// Its source, or the sender of ARP, is on the other side. It does not leave.
    Forged,
    /// ARP for IPv4 over Ethernet, of its own side. It leaves by the other port.
    Crosses,
    /// It carries neither IPv4 nor such ARP, or had a tag. It does not leave.
    Unjudged,
    /// It has more than 65,549 octets. It does not leave.
    TooLong,
    /// It had more octets on the link than were captured. It does not leave.
    Truncated,
}

/// Returns what becomes of a frame that arrived so.
pub fn fate_of(frames: Frames, settings: &Settings, arrival: &Arrival, frame: &[u8]) -> Fate
    requires { All (λ prefix. prefix.len ≤ 32) settings.now.prefixes.items }
    ensures { result ≡ spec.fate_of frames (plain_settings settings.now) arrival.now frame.now }
{
    match frames {
        Frames::Capture(_) => Fate::Judged,
        Frames::Ports => fate_at_port(settings, arrival, frame),
    }
}

// Returns what becomes of a frame that arrived at a port.
fn fate_at_port(settings: &Settings, arrival: &Arrival, frame: &[u8]) -> Fate
    requires { All (λ prefix. prefix.len ≤ 32) settings.now.prefixes.items }
    ensures { result ≡ spec.fate_at_port (plain_settings settings.now) arrival.now frame.now }
{
    if frame.len() < arrival.original as usize {
        return Fate::Truncated;
    }
    if frame.len() > MAX_FRAME {
        return Fate::TooLong;
    }
    if arrival.tag != 0 {
        return Fate::Unjudged;
    }
    match frame_kind(Link::Ethernet, frame) {
        FrameKind::Ip(_) => fate_of_ip(settings, arrival.port, frame),
        FrameKind::Arp => fate_of_arp(settings, arrival.port, frame),
        _ => Fate::Unjudged,
    }
}

// Returns whether IPv4 is judged, or its source is on the other side.
fn fate_of_ip(settings: &Settings, port: Port, frame: &[u8]) -> Fate
    requires { All (λ prefix. prefix.len ≤ 32) settings.now.prefixes.items }
    ensures { result ≡ spec.fate_of_ip (plain_settings settings.now) port frame.now }
{
    let packet = packet_in(Link::Ethernet, frame);
    if packet.len() < 16 {
        // Its source is not whole: the engine drops it.
        return Fate::Judged;
    }
    if is_own(settings, port, Addr(u32_at(packet, 12))) {
        Fate::Judged
    } else {
        Fate::Forged
    }
}

// Returns whether ARP crosses.
fn fate_of_arp(settings: &Settings, port: Port, frame: &[u8]) -> Fate
    requires { All (λ prefix. prefix.len ≤ 32) settings.now.prefixes.items }
    ensures { result ≡ spec.fate_of_arp (plain_settings settings.now) port frame.now }
{
    if !is_arp_of_ipv4(frame) {
        return Fate::Unjudged;
    }
    if is_own(settings, port, address_judged(frame)) {
        Fate::Crosses
    } else {
        Fate::Forged
    }
}

// Returns whether an address is on the side of a port.
fn is_own(settings: &Settings, port: Port, address: Addr) -> bool
    requires { All (λ prefix. prefix.len ≤ 32) settings.now.prefixes.items }
    ensures { result ≡ spec.is_own (plain_settings settings.now) port address.0 }
{
    let trusted = is_listed(&settings.prefixes, address) != settings.mirror;
    trusted == (port == Port::Inside)
}

// Returns whether an address is in some prefix.
fn is_listed(prefixes: &[Prefix], address: Addr) -> bool
    requires { All (λ prefix. prefix.len ≤ 32) prefixes.now }
    ensures { result ≡ side.is_listed prefixes.now address.0 }
{
    for prefix in prefixes {
        if prefix.holds(address) {
            return true;
        }
    }
    false
}
