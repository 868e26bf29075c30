ghost use Rattle.std.specs.Prelude.{◌≡◌};
ghost use Rattle.kn_packet.specs.Messages.{message};
ghost use Rattle.kn_packet.specs.Progress.{no_values, nothing_yet, values_for, packet_with_values, packet_so_far};
ghost use Rattle.kn_packet.specs.Seen.{values_seen};
ghost use Rattle.kn_packet.specs.Drafts.{draft_seen};

use crate::entry::Values;
use crate::packet_ref::PacketRef;
use crate::payload::{Payload, is_same, payload_for};

/// What was read of a packet so far: the last type, and the payload that survives with its values.
#[derive(Clone, Copy)]
pub struct Draft<'a> {
    pub kind: u64,
    pub payload: Payload,
    pub values: Values<'a>,
}

fn empty_values<'a>() -> Values<'a>
    ensures { values_seen result ≡ no_values }
{
    Values {
        text1: "",
        text2: "",
        bytes3: &[],
        number1: 0,
        number2: 0,
        number3: 0,
    }
}

/// Nothing was read.
pub fn empty_draft<'a>() -> Draft<'a>
    ensures { draft_seen result ≡ nothing_yet }
{
    Draft {
        kind: 0,
        payload: Payload::DialRequest,
        values: empty_values(),
    }
}

/// The values of the payload: none where it is not the one that survives.
pub fn values_of<'a>(payload: Payload, draft: Draft<'a>) -> Values<'a>
    ensures { values_seen result ≡ values_for payload (draft_seen draft.entry) }
{
    if is_same(draft.payload, payload) {
        draft.values
    } else {
        empty_values()
    }
}

/// The packet of a payload's type, with the values of the payload.
fn packet_of_values<'a>(payload: Payload, values: Values<'a>) -> PacketRef<'a>
    ensures { message result ≡ packet_with_values payload (values_seen values.entry) }
{
    match payload {
        Payload::DialRequest => PacketRef::DialReq {
            protocol: values.text1,
            address: values.text2,
            random: values.number3.cast_signed(),
        },
        Payload::DialResponse => PacketRef::DialRsp {
            error: values.text1,
            connect_id: values.number2.cast_signed(),
            random: values.number3.cast_signed(),
        },
        Payload::Data => PacketRef::Data {
            connect_id: values.number1.cast_signed(),
            error: values.text2,
            bytes: values.bytes3,
        },
        Payload::CloseRequest => PacketRef::CloseReq {
            connect_id: values.number1.cast_signed(),
        },
        Payload::CloseResponse => PacketRef::CloseRsp {
            error: values.text1,
            connect_id: values.number2.cast_signed(),
        },
        Payload::CloseDial => PacketRef::DialCls {
            random: values.number1.cast_signed(),
        },
        Payload::Drain => PacketRef::Drain,
    }
}

/// The packet, where nothing is left to read.
pub fn finished<'a>(draft: Draft<'a>) -> PacketRef<'a>
    ensures { message result ≡ packet_so_far (draft_seen draft.entry) }
{
    let number = draft.kind % (1 << 32);
    match payload_for(number) {
        Some(payload) => packet_of_values(payload, values_of(payload, draft)),
        None => PacketRef::Other {
            number: number as u32,
        },
    }
}
