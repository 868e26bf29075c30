ghost use Rattle.std.specs.Prelude.{◌≡◌, [], ◌∷◌, ◌++◌, IfOk, OnOk, decimal};
ghost use Rattle.kn_hpack.specs.Fields.{pair};
ghost use Rattle.kn_grpc.specs.CallHeads.{content_type, path_of, agent_fields, request_fields, server_count, server_fields, status_field, grpc_status, refusal_fields};
ghost use Rattle.kn_grpc.specs.OwnHeads.{call_fields, answer_fields};

use crate::call::{CallFault, Service};
use itoa::Buffer;
use kn_hpack::Headers;
use kn_io::NoMemory;
use std::alloc::Global;

#[tactic(auto, unfolding(crate::specs::CallHeads::path_of))]
fn path_of(service: Service) -> &'static str
    ensures { result.now ≡ path_of service }
{
    match service {
        Service::Agent => "/AgentService/Connect",
        Service::Proxy => "/ProxyService/Proxy",
    }
}

#[tactic(auto, unfolding(crate::specs::CallHeads::content_type))]
fn add_content_type(alloc: Global, headers: &mut Headers) -> Result<(), NoMemory>
    ensures { OnOk result (headers.new ≡ headers.old ++ content_type ∷ []) }
{
    headers.add(alloc, b"content-type", b"application/grpc")
}

/// Adds a field whose value is a number.
fn add_number(
    alloc: Global,
    headers: &mut Headers,
    name: &[u8],
    number: u32,
) -> Result<(), NoMemory>
    ensures { OnOk result (headers.new ≡ headers.old ++ pair name.now (decimal number) ∷ []) }
{
    let mut buffer = Buffer::new();
    let digits = buffer.format(number);
    headers.add(alloc, name, digits.as_bytes())
}

#[tactic(auto, unfolding(crate::specs::CallHeads::status_field))]
fn add_status(alloc: Global, headers: &mut Headers, status: u32) -> Result<(), NoMemory>
    ensures { OnOk result (headers.new ≡ headers.old ++ status_field status ∷ []) }
{
    add_number(alloc, headers, b":status", status)
}

#[tactic(auto, unfolding(crate::specs::CallHeads::grpc_status))]
fn add_grpc_status(alloc: Global, headers: &mut Headers, status: u32) -> Result<(), NoMemory>
    ensures { OnOk result (headers.new ≡ headers.old ++ grpc_status status ∷ []) }
{
    add_number(alloc, headers, b"grpc-status", status)
}

#[tactic(auto, unfolding(crate::specs::CallHeads::server_count))]
fn add_server_count(alloc: Global, headers: &mut Headers, count: u32) -> Result<(), NoMemory>
    ensures { OnOk result (headers.new ≡ headers.old ++ server_count count ∷ []) }
{
    add_number(alloc, headers, b"servercount", count)
}

#[tactic(auto, unfolding(crate::specs::CallHeads::request_fields))]
fn request(alloc: Global, service: Service, authority: &str) -> Result<Headers, NoMemory>
    ensures { IfOk result (λ h. h ≡ request_fields service authority.now) }
{
    let mut headers = Headers::new(alloc);
    headers.add(alloc, b":method", b"POST")?;
    headers.add(alloc, b":scheme", b"http")?;
    headers.add(alloc, b":path", path_of(service).as_bytes())?;
    headers.add(alloc, b":authority", authority.as_bytes())?;
    headers.add(alloc, b"te", b"trailers")?;
    add_content_type(alloc, &mut headers)?;
    Ok(headers)
}

#[tactic(auto, unfolding(crate::specs::CallHeads::agent_fields))]
fn add_agent(
    alloc: Global,
    headers: &mut Headers,
    service: Service,
    id: &str,
    identifiers: &str,
) -> Result<(), NoMemory>
    ensures { OnOk result (headers.new ≡ headers.old ++ agent_fields service id.now identifiers.now) }
{
    match service {
        Service::Agent => {
            headers.add(alloc, b"agentid", id.as_bytes())?;
            headers.add(alloc, b"agentidentifiers", identifiers.as_bytes())?;
            Ok(())
        }
        Service::Proxy => Ok(()),
    }
}

#[tactic(auto, unfolding(crate::specs::CallHeads::server_fields))]
fn add_server(
    alloc: Global,
    headers: &mut Headers,
    service: Service,
    id: &str,
    count: u32,
) -> Result<(), NoMemory>
    ensures { OnOk result (headers.new ≡ headers.old ++ server_fields service id.now count) }
{
    match service {
        Service::Agent => {
            headers.add(alloc, b"serverid", id.as_bytes())?;
            add_server_count(alloc, headers, count)?;
            Ok(())
        }
        Service::Proxy => Ok(()),
    }
}

/// The head of a call. The id and the identifiers are those of an agent, and a call of `Proxy` has none.
pub fn call_head(
    alloc: Global,
    service: Service,
    authority: &str,
    agent_id: &str,
    identifiers: &str,
) -> Result<Headers, NoMemory>
    ensures { IfOk result (λ h. h ≡ call_fields service authority.now agent_id.now identifiers.now) }
{
    let mut headers = request(alloc, service, authority)?;
    add_agent(alloc, &mut headers, service, agent_id, identifiers)?;
    Ok(headers)
}

/// The head of the answer to a call that is accepted. An agent is told the server's id, and how many
/// servers there are.
pub fn answer_head(
    alloc: Global,
    service: Service,
    server_id: &str,
    count: u32,
) -> Result<Headers, NoMemory>
    ensures { IfOk result (λ h. h ≡ answer_fields service server_id.now count) }
{
    let mut headers = Headers::new(alloc);
    add_status(alloc, &mut headers, 200)?;
    add_content_type(alloc, &mut headers)?;
    add_server(alloc, &mut headers, service, server_id, count)?;
    Ok(headers)
}

/// What ends a call, with the gRPC status.
pub fn trailers(alloc: Global, status: u32) -> Result<Headers, NoMemory>
    ensures { IfOk result (λ h. h ≡ grpc_status status ∷ []) }
{
    let mut headers = Headers::new(alloc);
    add_grpc_status(alloc, &mut headers, status)?;
    Ok(headers)
}

/// An answer of HTTP alone.
fn http_refusal(alloc: Global, status: u32) -> Result<Headers, NoMemory>
    ensures { IfOk result (λ h. h ≡ status_field status ∷ []) }
{
    let mut headers = Headers::new(alloc);
    add_status(alloc, &mut headers, status)?;
    Ok(headers)
}

/// An answer of gRPC without a message.
fn grpc_refusal(alloc: Global, status: u32) -> Result<Headers, NoMemory>
    ensures { IfOk result (λ h. h ≡ status_field 200 ∷ content_type ∷ grpc_status status ∷ []) }
{
    let mut headers = Headers::new(alloc);
    add_status(alloc, &mut headers, 200)?;
    add_content_type(alloc, &mut headers)?;
    add_grpc_status(alloc, &mut headers, status)?;
    Ok(headers)
}

/// The one head of the answer to a request that is no call, which ends it.
#[tactic(auto, unfolding(crate::specs::CallHeads::refusal_fields))]
pub fn refusal_head(alloc: Global, fault: CallFault) -> Result<Headers, NoMemory>
    ensures { IfOk result (λ h. h ≡ refusal_fields fault) }
{
    match fault {
        CallFault::NotPost => http_refusal(alloc, 405),
        CallFault::Path => grpc_refusal(alloc, 12),
        CallFault::ContentType => http_refusal(alloc, 415),
        CallFault::Identifiers => grpc_refusal(alloc, 13),
    }
}
