/// A packet that borrows its texts and bytes.
#[derive(Clone, Copy)]
pub enum PacketRef<'a> {
    DialReq {
        protocol: &'a str,
        address: &'a str,
        random: i64,
    },
    DialRsp {
        error: &'a str,
        connect_id: i64,
        random: i64,
    },
    CloseReq {
        connect_id: i64,
    },
    CloseRsp {
        error: &'a str,
        connect_id: i64,
    },
    Data {
        connect_id: i64,
        error: &'a str,
        bytes: &'a [u8],
    },
    DialCls {
        random: i64,
    },
    Drain,
    Other {
        number: u32,
    },
}
