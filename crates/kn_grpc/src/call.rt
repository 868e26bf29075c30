use kn_io::{NoMemory, Text};
use kn_route::Identifiers;

/// What a stream is a call of.
#[derive(Clone, Copy, Debug, PartialEq, Eq)]
pub enum Service {
    /// `AgentService/Connect`: an agent's link.
    Agent,
    /// `ProxyService/Proxy`: a client's stream.
    Proxy,
}

/// What a request head asks for. A call of `Proxy` has no id and no identifiers.
#[derive(Drop)]
pub struct Call {
    pub service: Service,
    pub agent_id: Text,
    pub identifiers: Identifiers,
}

/// Why a request head is no call. The first that holds is told.
#[derive(Clone, Copy, Debug, PartialEq, Eq)]
pub enum CallFault {
    /// The method is not POST.
    NotPost,
    /// The path names neither service.
    Path,
    /// The content type is missing, or is not gRPC's.
    ContentType,
    /// The agent's identifiers cannot be read, or its id is not UTF-8 or over 1,024 bytes.
    Identifiers,
}

/// Why no call was read.
#[derive(Clone, Copy, Debug, PartialEq, Eq)]
pub enum CallError {
    NoMemory,
    Fault(CallFault),
}

impl From<NoMemory> for CallError {
    ghost use Rattle.std.specs.Prelude.{◌≡◌};
    ghost use Rattle.kn_grpc.specs.declared.call.CallError.TheVariants as Error;

    ghost from_gives = { λ _ error. error ≡ Error.NoMemory };

    fn from(_error: NoMemory) -> CallError {
        CallError::NoMemory
    }
}
