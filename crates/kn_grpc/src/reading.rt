ghost use Rattle.std.specs.Prelude.{◌≡◌, slice_index, true, false, MatchOption};
ghost use Rattle.std.specs.Str.{is_utf8};
ghost use Rattle.kn_grpc.specs.Calls.{value_in, may_precede, ends_in, service_of, is_id, agent_by, agent_call, call_for, call_at, call_in, service_in_path, IsCallAnswer};
ghost use Rattle.kn_route.specs.Identifiers.{identifiers_in};

use crate::call::{Call, CallError, CallFault, Service};
use kn_hpack::Headers;
use kn_io::Text;
use kn_route::{IdFault, Identifiers};
use std::alloc::Global;
use std::str;

/// The most bytes that an agent's id has.
const ID_LIMIT: usize = 1_024;

/// The value of the first field of this name, or nothing.
fn value_of<'a>(headers: &'a Headers, name: &[u8]) -> &'a [u8]
    ensures { result.now ≡ value_in name.now headers.now }
{
    for index in 0..headers.len() {
        if headers.name(index) == name {
            return headers.value(index);
        }
    }
    b"".as_slice()
}

/// A byte, or 0 where there is none.
fn byte_at(bytes: &[u8], index: usize) -> u8
    ensures { result ≡ slice_index bytes.now index }
{
    match bytes.get(index) {
        Some(byte) => *byte,
        None => 0,
    }
}

/// Whether a service's name may stand behind these bytes: behind a slash, or behind a package and a dot.
fn may_precede(front: &[u8]) -> bool
    ensures { result ≡ may_precede front.now }
{
    let last = byte_at(front, front.len().saturating_sub(1));
    let before = byte_at(front, front.len().saturating_sub(2));
    last == b'/' || (last == b'.' && before != b'/')
}

/// Whether these are a path's last two segments, the service's name alone or behind a package.
fn ends_in(path: &[u8], segments: &[u8]) -> bool
    ensures { result ≡ ends_in path.now segments.now }
{
    if path.ends_with(segments) {
        may_precede(&path[..path.len() - segments.len()])
    } else {
        false
    }
}

/// The service that a path names.
#[tactic(auto, unfolding(crate::specs::Calls::service_of))]
fn service_of(path: &[u8]) -> Option<Service>
    ensures { result ≡ service_of path.now }
{
    if byte_at(path, 0) != b'/' {
        None
    } else if ends_in(path, b"AgentService/Connect") {
        Some(Service::Agent)
    } else if ends_in(path, b"ProxyService/Proxy") {
        Some(Service::Proxy)
    } else {
        None
    }
}

/// The text of a value, where it is UTF-8.
fn text_of(value: &[u8]) -> Option<&str>
    ensures { MatchOption result (is_utf8 value.now ≡ false) (λ text. (text.now ≡ value.now) × (is_utf8 value.now ≡ true)) }
{
    match str::from_utf8(value) {
        Ok(text) => Some(text),
        Err(_error) => None,
    }
}

/// An agent's call with these identifiers, if its id is one.
fn with_id(alloc: Global, identifiers: Identifiers, id: &[u8]) -> Result<Call, CallError>
    ensures { IsCallAnswer (agent_by (Ok identifiers) id.now) result }
{
    match text_of(id) {
        None => Err(CallError::Fault(CallFault::Identifiers)),
        Some(text) => {
            if text.len() > ID_LIMIT {
                return Err(CallError::Fault(CallFault::Identifiers));
            }
            match Text::of(alloc, text) {
                Ok(agent_id) => Ok(Call {
                    service: Service::Agent,
                    agent_id,
                    identifiers,
                }),
                Err(_error) => Err(CallError::NoMemory),
            }
        }
    }
}

/// An agent's call with the identifiers of a text.
fn with_identifiers(alloc: Global, text: &str, id: &[u8]) -> Result<Call, CallError>
    ensures { IsCallAnswer (agent_by (identifiers_in text.now) id.now) result }
{
    match Identifiers::read(alloc, text) {
        Ok(identifiers) => with_id(alloc, identifiers, id),
        Err(IdFault::NoMemory) => Err(CallError::NoMemory),
        Err(IdFault::TooLong) => Err(CallError::Fault(CallFault::Identifiers)),
        Err(IdFault::Kind { .. }) => Err(CallError::Fault(CallFault::Identifiers)),
    }
}

/// An agent's call.
#[tactic(auto, unfolding(crate::specs::Calls::agent_call))]
fn agent_call(alloc: Global, identifiers: &[u8], id: &[u8]) -> Result<Call, CallError>
    ensures { IsCallAnswer (agent_call identifiers.now id.now) result }
{
    match text_of(identifiers) {
        Some(text) => with_identifiers(alloc, text, id),
        None => Err(CallError::Fault(CallFault::Identifiers)),
    }
}

/// The call of a service.
fn call_for(alloc: Global, service: Service, headers: &Headers) -> Result<Call, CallError>
    ensures { IsCallAnswer (call_for service headers.now) result }
{
    match service {
        Service::Agent => agent_call(
            alloc,
            value_of(headers, b"agentidentifiers"),
            value_of(headers, b"agentid"),
        ),
        Service::Proxy => Ok(Call {
            service: Service::Proxy,
            agent_id: Text::new(alloc),
            identifiers: Identifiers::new(alloc),
        }),
    }
}

/// The call of a path.
fn call_at(alloc: Global, service: Option<Service>, headers: &Headers) -> Result<Call, CallError>
    ensures { IsCallAnswer (call_at service headers.now) result }
{
    match service {
        Some(service) => {
            if value_of(headers, b"content-type").starts_with(b"application/grpc") {
                call_for(alloc, service, headers)
            } else {
                Err(CallError::Fault(CallFault::ContentType))
            }
        }
        None => Err(CallError::Fault(CallFault::Path)),
    }
}

/// The call that a request head asks for, or its first fault: the method, the path, the content type, and
/// for an agent its identifiers and its id. All other fields are ignored.
#[tactic(auto, unfolding(crate::specs::Calls::call_in))]
pub fn read_call(alloc: Global, headers: &Headers) -> Result<Call, CallError>
    ensures { IsCallAnswer (call_in headers.now) result }
{
    if value_of(headers, b":method") == b"POST".as_slice() {
        call_at(alloc, service_of(value_of(headers, b":path")), headers)
    } else {
        Err(CallError::Fault(CallFault::NotPost))
    }
}

/// The service that the path of a request head names, where the method is POST: whatever its content type,
/// and whatever an agent says of itself. Takes no memory.
#[tactic(auto, unfolding(crate::specs::Calls::service_in_path))]
pub fn service_in_path(headers: &Headers) -> Option<Service>
    ensures { result ≡ service_in_path headers.now }
{
    if value_of(headers, b":method") == b"POST".as_slice() {
        service_of(value_of(headers, b":path"))
    } else {
        None
    }
}
