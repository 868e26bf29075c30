ghost use Rattle.std.specs.Prelude.{◌≡◌};
ghost use Rattle.kn_packet.specs.Payloads.{number_of, is_payload, payload_of_number, payload_of_type, kind_of};

/// The messages of a packet's oneof, by the names of their fields in client.proto.
#[derive(Clone, Copy)]
pub enum Payload {
    DialRequest,
    DialResponse,
    Data,
    CloseRequest,
    CloseResponse,
    CloseDial,
    Drain,
}

/// What a field of a payload is of.
#[derive(Clone, Copy)]
pub enum FieldKind {
    Int64,
    Text,
    Bytes,
    Unknown,
}

/// The number of the payload's field in a packet.
pub fn field_number(payload: Payload) -> u64
    ensures { result ≡ number_of payload }
{
    match payload {
        Payload::DialRequest => 2,
        Payload::DialResponse => 3,
        Payload::Data => 4,
        Payload::CloseRequest => 5,
        Payload::CloseResponse => 6,
        Payload::CloseDial => 7,
        Payload::Drain => 8,
    }
}

pub fn is_same(one: Payload, other: Payload) -> bool
    ensures { result ≡ is_payload one other }
{
    field_number(one) == field_number(other)
}

/// The payload in the packet's field of the number.
pub fn payload_at(number: u64) -> Option<Payload>
    ensures { result ≡ payload_of_number number }
{
    match number {
        2 => Some(Payload::DialRequest),
        3 => Some(Payload::DialResponse),
        4 => Some(Payload::Data),
        5 => Some(Payload::CloseRequest),
        6 => Some(Payload::CloseResponse),
        7 => Some(Payload::CloseDial),
        8 => Some(Payload::Drain),
        _ => None,
    }
}

/// The payload of the packet type.
pub fn payload_for(packet_type: u64) -> Option<Payload>
    ensures { result ≡ payload_of_type packet_type }
{
    match packet_type {
        0 => Some(Payload::DialRequest),
        1 => Some(Payload::DialResponse),
        2 => Some(Payload::CloseRequest),
        3 => Some(Payload::CloseResponse),
        4 => Some(Payload::Data),
        5 => Some(Payload::CloseDial),
        6 => Some(Payload::Drain),
        _ => None,
    }
}

/// What the payload's field of the number is of.
pub fn kind(payload: Payload, number: u64) -> FieldKind
    ensures { result ≡ kind_of payload number }
{
    match (payload, number) {
        (Payload::DialRequest, 1) => FieldKind::Text,
        (Payload::DialRequest, 2) => FieldKind::Text,
        (Payload::DialRequest, 3) => FieldKind::Int64,
        (Payload::DialResponse, 1) => FieldKind::Text,
        (Payload::DialResponse, 2) => FieldKind::Int64,
        (Payload::DialResponse, 3) => FieldKind::Int64,
        (Payload::Data, 1) => FieldKind::Int64,
        (Payload::Data, 2) => FieldKind::Text,
        (Payload::Data, 3) => FieldKind::Bytes,
        (Payload::CloseRequest, 1) => FieldKind::Int64,
        (Payload::CloseResponse, 1) => FieldKind::Text,
        (Payload::CloseResponse, 2) => FieldKind::Int64,
        (Payload::CloseDial, 1) => FieldKind::Int64,
        _ => FieldKind::Unknown,
    }
}
