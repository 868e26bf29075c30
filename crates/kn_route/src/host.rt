ghost use Rattle.std.specs.Prelude.{◌≡◌, IsTrue};
ghost use Rattle.std.specs.Char.{is_ascii_digit};
ghost use Rattle.std.specs.List.{list_all};
ghost use Rattle.kn_route.specs.Hosts as spec;

use crate::cut::{cut, strip};

/// The most bytes that an address of a dial has.
pub const ADDRESS_LIMIT: usize = 300;

/// Why an address of a dial has no host. The first that holds is told.
#[derive(Clone, Copy, Debug, PartialEq, Eq)]
pub enum HostFault {
    /// The address is over 300 bytes.
    TooLong,
    /// It begins with `[` and has no `]`, or it begins otherwise and has more than one `:`.
    Bracket,
    /// It has no `:`, or the first `]` after a `[` at its front is not followed by `:`.
    NoPort,
    /// The host is empty.
    Empty,
    /// The port is not one to five digits of a value from 1 to 65,535.
    PortNumber,
}

fn is_digits(text: &str) -> bool
    ensures { result ≡ list_all is_ascii_digit text.now }
{
    text.as_bytes().iter().all(|b| b.is_ascii_digit())
}

fn has_port_value(digits: &str) -> bool
    requires { IsTrue (list_all is_ascii_digit digits.now) }
    ensures { result ≡ spec.has_port_value digits.now }
{
    match digits.parse::<u16>() {
        Ok(number) => number != 0,
        Err(_) => false,
    }
}

fn is_port(port: &str) -> bool
    ensures { result ≡ spec.is_port port.now }
{
    port.len() <= 5 && is_digits(port) && has_port_value(port)
}

fn host_with_port<'a>(host: &'a str, port: &str) -> Result<&'a str, HostFault>
    ensures { spec.IsHostAnswer (spec.host_with_port host.now port.now) result }
{
    if host.is_empty() {
        Err(HostFault::Empty)
    } else if is_port(port) {
        Ok(host)
    } else {
        Err(HostFault::PortNumber)
    }
}

fn host_before_bracket(rest: &str) -> Result<&str, HostFault>
    ensures { spec.IsHostAnswer (spec.host_before_bracket rest.now) result }
{
    let Some((host, after)) = cut(rest, ']') else {
        return Err(HostFault::Bracket);
    };
    match strip(after, ':') {
        Some(port) => host_with_port(host, port),
        None => Err(HostFault::NoPort),
    }
}

fn host_before_colon(address: &str) -> Result<&str, HostFault>
    ensures { spec.IsHostAnswer (spec.host_before_colon address.now) result }
{
    let Some((host, port)) = cut(address, ':') else {
        return Err(HostFault::NoPort);
    };
    match cut(port, ':') {
        Some(_) => Err(HostFault::Bracket),
        None => host_with_port(host, port),
    }
}

/// The host of an address of the form `HOST:PORT` or `[HOST]:PORT`. It takes no memory.
#[tactic(auto, unfolding(crate::specs::Hosts::host_in))]
pub fn host_of(address: &str) -> Result<&str, HostFault>
    ensures { spec.IsHostAnswer (spec.host_in address.now) result }
{
    if address.len() > ADDRESS_LIMIT {
        return Err(HostFault::TooLong);
    }
    match strip(address, '[') {
        Some(rest) => host_before_bracket(rest),
        None => host_before_colon(address),
    }
}
