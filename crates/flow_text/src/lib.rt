// Flows read from text.
#![tactic(auto)]

ghost use Rattle.std.specs.Prelude.{◌≡◌, []};
ghost use Rattle.std.specs.Option.{option_map};
ghost use Rattle.std.specs.Net.Addr.{ipv4_octets};
ghost use Rattle.std.specs.Net.Socket.{v4_ip, v4_port};
ghost use Rattle.keys.specs.Bytes.{four};
ghost use Rattle.flows.specs.Flows.{flow_bytes};
ghost use Rattle.flow_text.specs.FlowText.{colon, address, endpoint, flow_from};

use flows::Flow;
use numerals::{bounded, cut, split_once};
use std::net::{Ipv4Addr, SocketAddrV4};

// An address up to the first colon, and what stands behind it.
fn read_address<'a>(s: &'a [u8]) -> Option<(Ipv4Addr, &'a [u8])>
    ensures { option_map (λ p. (ipv4_octets p.0, p.1.now)) result ≡ address colon s.now }
{
    let (text, rest) = split_once(s, b':')?;
    Some((Ipv4Addr::parse_ascii(text).ok()?, rest))
}

// An address, a colon and a port up to the mark, and what stands behind it.
fn read_endpoint<'a>(s: &'a [u8], mark: u8) -> Option<(SocketAddrV4, &'a [u8])>
    ensures { option_map (λ p. (ipv4_octets (v4_ip p.0), v4_port p.0, p.1.now)) result ≡ endpoint mark s.now }
{
    let (address, s) = read_address(s)?;
    let (port, s) = cut(s, 65536, mark)?;
    Some((SocketAddrV4::new(address, u16::try_from(port).ok()?), s))
}

// The number of an address, by its octets: `u32::from` was tried, and its proof did not close, since no clause
// says there that the octets are four bytes.
fn number_of(address: &Ipv4Addr) -> u32
    ensures { four result [] ≡ ipv4_octets address.now }
{
    u32::from_be_bytes(address.octets())
}

// The flow that a text says, or none.
pub fn read_flow(s: &[u8]) -> Option<Flow>
    ensures { option_map flow_bytes result ≡ flow_from s.now }
{
    let (source, s) = read_endpoint(s, b'>')?;
    let (destination, s) = read_endpoint(s, b'/')?;
    let protocol = u8::try_from(bounded(s, 256)?).ok()?;
    Some(Flow {
        source: number_of(source.ip()),
        destination: number_of(destination.ip()),
        source_port: source.port(),
        destination_port: destination.port(),
        protocol,
    })
}
