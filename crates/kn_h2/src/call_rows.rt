//! Connections of one end as constants: what is done to them, and what they answer.

use crate::*;

/// What is done to a connection, with what it answers.
#[derive(Clone, Copy)]
pub(crate) enum Step {
    /// These bytes of the peer come, in one piece.
    Feed(&'static [&'static [u8]]),
    /// They come so often.
    FeedTimes(usize, &'static [u8]),
    /// They come one by one.
    FeedSingly(&'static [u8]),
    /// They come, and so many zeros behind them, one by one.
    FeedLong(&'static [u8], usize),
    /// Requests come on so many streams, from this one on.
    FeedRequests(u8, u8),
    Begin(Result<u32, BeginRefusal>),
    Answer(u32, Result<(), QueueRefusal>),
    Queue(u32, &'static [u8], Result<(), QueueRefusal>),
    /// So many bytes are queued, which is answered `Ok`.
    QueueLong(u32, usize),
    Finish(u32, Result<(), QueueRefusal>),
    Reset(u32, u32, Result<(), QueueRefusal>),
    Fill,
    /// All that waits for the socket is this, and is taken.
    Writes(&'static [&'static [u8]]),
    WritesSoMany(usize),
    /// These are the events.
    Tells(&'static [Told]),
    TellsSoMany(usize),
    Take(u32, usize),
    Text(u32, &'static [u8]),
    Queued(u32, usize),
    Unsent(usize),
    Held(usize),
    Closed(u32, bool),
    Over(Option<u32>),
}

/// An event: of heads the number of their fields.
#[derive(Clone, Copy, Debug, PartialEq, Eq)]
pub(crate) enum Told {
    Opened(u32, usize),
    Head(u32, usize),
    Text(u32),
    Ended(u32),
    Reset(u32, u32),
    Away(u32),
    Closed(u32),
}

pub(crate) type Row = (&'static str, Role, &'static [Step]);

/// What a server begins with.
const SERVER_OPENS: &[u8] =
    b"\x00\x00\x0c\x04\x00\x00\x00\x00\x00\x00\x03\x00\x00\x00\x64\x00\x06\x00\x00\x40\x00\x00\x00\x04\x08\x00\x00\x00\x00\x00\x00\x62\xff\x9d";

/// What a client begins with.
const CLIENT_OPENS: &[u8] =
    b"PRI * HTTP/2.0\r\n\r\n\x53\x4d\r\n\r\n\x00\x00\x0c\x04\x00\x00\x00\x00\x00\x00\x02\x00\x00\x00\x00\x00\x06\x00\x00\x40\x00\x00\x00\x04\x08\x00\x00\x00\x00\x00\x00\x62\xff\x9d";

/// What a peer of a server sends first: the preface, and an empty SETTINGS frame.
pub(crate) const PREFACE: &[u8] =
    b"PRI * HTTP/2.0\r\n\r\n\x53\x4d\r\n\r\n\x00\x00\x00\x04\x00\x00\x00\x00\x00";

/// An empty SETTINGS frame, and one that acknowledges another.
pub(crate) const SETTINGS: &[u8] = b"\x00\x00\x00\x04\x00\x00\x00\x00\x00";

const ACKNOWLEDGED: &[u8] = b"\x00\x00\x00\x04\x01\x00\x00\x00\x00";

const PING: &[u8] = b"\x00\x00\x08\x06\x00\x00\x00\x00\x00\x01\x02\x03\x04\x05\x06\x07\x08";

const PING_BACK: &[u8] = b"\x00\x00\x08\x06\x01\x00\x00\x00\x00\x01\x02\x03\x04\x05\x06\x07\x08";

/// The request of this end, where it is the first head that it sends.
const REQUEST: &[u8] = b"\x00\x00\x04\x01\x04\x00\x00\x00\x01\x20\x83\x86\x84";

const RESPONSE: &[u8] = b"\x00\x00\x02\x01\x04\x00\x00\x00\x01\x20\x88";

/// What a server answers a call with: the head, one message, the end and the reset behind it.
const CALL_ANSWERED: &[u8] =
    b"\x00\x00\x21\x01\x04\x00\x00\x00\x01\x20\x88\x00\x0ccontent-type\x10application/grpc";

const MESSAGE_FRAME: &[u8] =
    b"\x00\x00\x1f\x00\x00\x00\x00\x00\x01\x00\x00\x00\x00\x1a\x08\x01\x1a\x16\n\x12no agent available\x18\x05";

const MESSAGE: &[u8] = b"\x00\x00\x00\x00\x1a\x08\x01\x1a\x16\n\x12no agent available\x18\x05";

const TRAILERS: &[u8] = b"\x00\x00\x0f\x01\x05\x00\x00\x00\x01\x00\x0bgrpc-status\x01\x30";

const NO_ERROR: &[u8] = b"\x00\x00\x04\x03\x00\x00\x00\x00\x01\x00\x00\x00\x00";

/// The head of a DATA frame of the longest payload.
const LONG_DATA: &[u8] = b"\x00\x40\x00\x00\x00\x00\x00\x00\x01";

pub(crate) const ROWS: [Row; 24] = [
    (
        "a grant of 0 ends the connection",
        Role::Server,
        &[
            Step::Feed(&[PREFACE]),
            Step::Feed(&[b"\x00\x00\x04\x08\x00\x00\x00\x00\x00\x00\x00\x00\x00"]),
            Step::Tells(&[Told::Closed(1)]),
            Step::Over(Some(1)),
            Step::Writes(&[
                SERVER_OPENS,
                ACKNOWLEDGED,
                b"\x00\x00\x08\x07\x00\x00\x00\x00\x00\x00\x00\x00\x00\x00\x00\x00\x01",
            ]),
            Step::Queue(1, b"a", Err(QueueRefusal::Gone { code: 1 })),
            Step::Finish(1, Err(QueueRefusal::Gone { code: 1 })),
            Step::Reset(1, 8, Err(QueueRefusal::Gone { code: 1 })),
            Step::Fill,
            Step::Writes(&[]),
        ],
    ),
    (
        "a peer that allows no stream",
        Role::Client,
        &[
            Step::Feed(&[b"\x00\x00\x06\x04\x00\x00\x00\x00\x00\x00\x03\x00\x00\x00\x00"]),
            Step::Begin(Err(BeginRefusal::Many)),
            Step::Queue(1, b"a", Err(QueueRefusal::NoStream)),
        ],
    ),
    (
        "a queue that is full",
        Role::Client,
        &[
            Step::Begin(Ok(1)),
            Step::QueueLong(1, 5_242_881),
            Step::Queue(1, b"a", Err(QueueRefusal::Full { held: 5_242_881 })),
            Step::Queued(1, 5_242_881),
            Step::Unsent(5_242_881),
            Step::Queue(3, b"a", Err(QueueRefusal::NoStream)),
        ],
    ),
    (
        "a whole response",
        Role::Client,
        &[
            Step::Begin(Ok(1)),
            Step::Feed(&[
                SERVER_OPENS,
                ACKNOWLEDGED,
                CALL_ANSWERED,
                PING_BACK,
                MESSAGE_FRAME,
                TRAILERS,
                NO_ERROR,
            ]),
            Step::Tells(&[Told::Head(1, 2), Told::Text(1), Told::Ended(1)]),
            Step::Text(1, MESSAGE),
            Step::Queue(1, b"a", Err(QueueRefusal::NoStream)),
            Step::Closed(1, true),
            Step::Take(1, 31),
            Step::Text(1, b""),
        ],
    ),
    (
        "a reset with another code behind the trailers",
        Role::Client,
        &[
            Step::Begin(Ok(1)),
            Step::Feed(&[
                SERVER_OPENS,
                ACKNOWLEDGED,
                CALL_ANSWERED,
                PING_BACK,
                MESSAGE_FRAME,
                TRAILERS,
                b"\x00\x00\x04\x03\x00\x00\x00\x00\x01\x00\x00\x00\x08",
            ]),
            Step::Tells(&[
                Told::Head(1, 2),
                Told::Text(1),
                Told::Ended(1),
                Told::Reset(1, 8),
            ]),
            Step::Text(1, b""),
            Step::Closed(1, true),
        ],
    ),
    (
        "a flood of PINGs",
        Role::Server,
        &[
            Step::Feed(&[PREFACE]),
            Step::FeedTimes(3_854, PING),
            Step::Over(None),
            Step::FeedTimes(1, PING),
            Step::Over(Some(11)),
            Step::Tells(&[Told::Closed(11)]),
            Step::WritesSoMany(65_578),
        ],
    ),
    (
        "a stream of a client",
        Role::Client,
        &[
            Step::Feed(&[SETTINGS]),
            Step::Begin(Ok(1)),
            Step::Writes(&[CLIENT_OPENS, ACKNOWLEDGED, REQUEST]),
            Step::Queue(1, b"hello", Ok(())),
            Step::Queued(1, 5),
            Step::Fill,
            Step::Queued(1, 0),
            Step::Writes(&[b"\x00\x00\x05\x00\x00\x00\x00\x00\x01hello"]),
            Step::Finish(1, Ok(())),
            Step::Finish(1, Err(QueueRefusal::NoStream)),
            Step::Queue(1, b"a", Err(QueueRefusal::NoStream)),
            Step::Fill,
            Step::Writes(&[b"\x00\x00\x00\x00\x01\x00\x00\x00\x01"]),
            Step::Closed(1, false),
            Step::Feed(&[b"\x00\x00\x01\x01\x05\x00\x00\x00\x01\x88"]),
            Step::Tells(&[Told::Head(1, 1), Told::Ended(1)]),
            Step::Closed(1, true),
        ],
    ),
    (
        "a stream that a client gives up",
        Role::Client,
        &[
            Step::Feed(&[SETTINGS]),
            Step::Begin(Ok(1)),
            Step::Queue(1, b"a", Ok(())),
            Step::Writes(&[CLIENT_OPENS, ACKNOWLEDGED, REQUEST]),
            Step::Reset(1, 8, Ok(())),
            Step::Writes(&[b"\x00\x00\x04\x03\x00\x00\x00\x00\x01\x00\x00\x00\x08"]),
            Step::Queued(1, 0),
            Step::Closed(1, true),
            Step::Reset(1, 8, Err(QueueRefusal::NoStream)),
            Step::Begin(Ok(3)),
            Step::Writes(&[b"\x00\x00\x03\x01\x04\x00\x00\x00\x03\x83\x86\x84"]),
            Step::Feed(&[b"\x00\x00\x08\x07\x00\x00\x00\x00\x00\x00\x00\x00\x00\x00\x00\x00\x00"]),
            Step::Tells(&[Told::Away(0)]),
            Step::Begin(Err(BeginRefusal::Away)),
        ],
    ),
    (
        "a stream of a server",
        Role::Server,
        &[
            Step::Feed(&[PREFACE]),
            Step::Writes(&[SERVER_OPENS, ACKNOWLEDGED]),
            Step::FeedRequests(1, 1),
            Step::Tells(&[Told::Opened(1, 3)]),
            Step::FeedLong(LONG_DATA, 16_384),
            Step::Tells(&[Told::Text(1)]),
            Step::Take(1, 16_383),
            Step::Fill,
            Step::Writes(&[]),
            Step::Take(1, 1),
            Step::Fill,
            Step::Writes(&[
                b"\x00\x00\x04\x08\x00\x00\x00\x00\x00\x00\x00\x40\x00",
                b"\x00\x00\x04\x08\x00\x00\x00\x00\x01\x00\x00\x40\x00",
            ]),
            Step::Answer(1, Ok(())),
            Step::Writes(&[RESPONSE]),
            Step::Queue(1, b"reply", Ok(())),
            Step::Finish(1, Ok(())),
            Step::Fill,
            Step::Writes(&[
                b"\x00\x00\x05\x00\x00\x00\x00\x00\x01reply",
                TRAILERS,
                NO_ERROR,
            ]),
            Step::Closed(1, true),
            Step::Over(None),
        ],
    ),
    (
        "a window below 0",
        Role::Client,
        &[
            Step::Feed(&[SETTINGS]),
            Step::Begin(Ok(1)),
            Step::QueueLong(1, 65_535),
            Step::WritesSoMany(80),
            Step::Fill,
            Step::WritesSoMany(16_392),
            Step::Fill,
            Step::WritesSoMany(16_393),
            Step::Fill,
            Step::WritesSoMany(16_393),
            Step::Fill,
            Step::WritesSoMany(16_393),
            Step::Queued(1, 0),
            Step::Feed(&[b"\x00\x00\x04\x08\x00\x00\x00\x00\x00\x00\x00\x00\x64"]),
            Step::Feed(&[b"\x00\x00\x06\x04\x00\x00\x00\x00\x00\x00\x04\x00\x00\x00\x64"]),
            Step::Queue(1, b"ab", Ok(())),
            Step::Fill,
            Step::Writes(&[ACKNOWLEDGED]),
            Step::Feed(&[b"\x00\x00\x06\x04\x00\x00\x00\x00\x00\x00\x04\x00\x00\xff\xff"]),
            Step::Fill,
            Step::Writes(&[ACKNOWLEDGED]),
            Step::Feed(&[b"\x00\x00\x06\x04\x00\x00\x00\x00\x00\x00\x04\x00\x01\x00\x00"]),
            Step::Fill,
            Step::Writes(&[ACKNOWLEDGED, b"\x00\x00\x01\x00\x00\x00\x00\x00\x01\x61"]),
            Step::Queued(1, 1),
        ],
    ),
    (
        "the stream after 100",
        Role::Server,
        &[
            Step::Feed(&[PREFACE]),
            Step::WritesSoMany(43),
            Step::FeedRequests(1, 100),
            Step::TellsSoMany(100),
            Step::Writes(&[]),
            Step::Feed(&[b"\x00\x00\x06\x01\x04\x00\x00\x00\xc9\x83\x86\x44\x02\x2f\x78"]),
            Step::Tells(&[]),
            Step::Writes(&[b"\x00\x00\x04\x03\x00\x00\x00\x00\xc9\x00\x00\x00\x07"]),
            Step::Closed(201, true),
            Step::Answer(199, Ok(())),
            Step::Reset(199, 8, Ok(())),
            Step::Writes(&[
                b"\x00\x00\x02\x01\x04\x00\x00\x00\xc7\x20\x88",
                b"\x00\x00\x04\x03\x00\x00\x00\x00\xc7\x00\x00\x00\x08",
            ]),
            Step::Feed(&[b"\x00\x00\x03\x01\x04\x00\x00\x00\xcb\x83\x86\xbe"]),
            Step::Tells(&[Told::Opened(203, 3)]),
            Step::Over(None),
        ],
    ),
    (
        "a flood of CONTINUATION",
        Role::Server,
        &[
            Step::Feed(&[PREFACE]),
            Step::FeedLong(b"\x00\x40\x00\x01\x00\x00\x00\x00\x01", 16_384),
            Step::FeedLong(b"\x00\x40\x00\x09\x00\x00\x00\x00\x01", 16_384),
            Step::Over(None),
            Step::Feed(&[b"\x00\x00\x01\x09\x00\x00\x00\x00\x01\x00"]),
            Step::Over(Some(11)),
            Step::Tells(&[Told::Closed(11)]),
        ],
    ),
    (
        "DATA padded to the last byte of the window",
        Role::Server,
        &[
            Step::Feed(&[PREFACE]),
            Step::WritesSoMany(43),
            Step::FeedRequests(1, 1),
            Step::FeedLong(LONG_DATA, 16_384),
            Step::FeedLong(LONG_DATA, 16_384),
            Step::FeedLong(LONG_DATA, 16_384),
            Step::FeedLong(b"\x00\x3f\xff\x00\x08\x00\x00\x00\x01\xff", 16_382),
            Step::Over(None),
            Step::TellsSoMany(5),
            Step::Take(1, 65_279),
            Step::Text(1, b""),
            Step::Fill,
            Step::Writes(&[
                b"\x00\x00\x04\x08\x00\x00\x00\x00\x00\x00\x00\xff\xff",
                b"\x00\x00\x04\x08\x00\x00\x00\x00\x01\x00\x00\xff\xff",
            ]),
        ],
    ),
    (
        "DATA over the window",
        Role::Server,
        &[
            Step::Feed(&[PREFACE]),
            Step::FeedRequests(1, 1),
            Step::FeedLong(LONG_DATA, 16_384),
            Step::FeedLong(LONG_DATA, 16_384),
            Step::FeedLong(LONG_DATA, 16_384),
            Step::FeedLong(LONG_DATA, 16_384),
            Step::Over(Some(3)),
        ],
    ),
    (
        "a header block in pieces",
        Role::Server,
        &[
            Step::Feed(&[PREFACE]),
            Step::FeedSingly(
                b"\x00\x00\x01\x01\x00\x00\x00\x00\x01\x83\x00\x00\x01\x09\x00\x00\x00\x00\x01\x86\x00\x00\x01\x09\x04\x00\x00\x00\x01\x84",
            ),
            Step::Tells(&[Told::Opened(1, 3)]),
            Step::FeedSingly(b"\x00\x00\x01\x01\x00\x00\x00\x00\x03\x83"),
            Step::Feed(&[PING]),
            Step::Tells(&[Told::Closed(1)]),
        ],
    ),
    (
        "requests that are malformed",
        Role::Server,
        &[
            Step::Feed(&[PREFACE]),
            Step::WritesSoMany(43),
            Step::Feed(&[b"\x00\x00\x08\x01\x05\x00\x00\x00\x01\x83\x86\x84\x00\x01\x41\x01\x61"]),
            Step::Writes(&[b"\x00\x00\x04\x03\x00\x00\x00\x00\x01\x00\x00\x00\x01"]),
            Step::Feed(&[b"\x00\x00\x04\x01\x05\x00\x00\x00\x03\x83\x83\x86\x84"]),
            Step::Writes(&[b"\x00\x00\x04\x03\x00\x00\x00\x00\x03\x00\x00\x00\x01"]),
            Step::Tells(&[]),
            Step::Closed(3, true),
            Step::Feed(&[b"\x00\x00\x03\x01\x05\x00\x00\x00\x05\x83\x86\x84"]),
            Step::Tells(&[Told::Opened(5, 3), Told::Ended(5)]),
            Step::Over(None),
        ],
    ),
    (
        "a first frame that is not SETTINGS",
        Role::Server,
        &[
            Step::Feed(&[b"PRI * HTTP/2.0\r\n\r\nSM\r\n\r\n", PING]),
            Step::Tells(&[Told::Closed(1)]),
        ],
    ),
    (
        "a list of fields that is too large",
        Role::Server,
        &[
            Step::Feed(&[PREFACE]),
            Step::FeedLong(
                b"\x00\x40\x00\x01\x00\x00\x00\x00\x01\x00\x01\x61\x7f\xa1\x7f",
                16_378,
            ),
            Step::FeedLong(b"\x00\x00\x26\x09\x04\x00\x00\x00\x01", 38),
            Step::Over(Some(11)),
        ],
    ),
    (
        "a response that is malformed",
        Role::Client,
        &[
            Step::Feed(&[SETTINGS]),
            Step::Begin(Ok(1)),
            Step::Writes(&[CLIENT_OPENS, ACKNOWLEDGED, REQUEST]),
            Step::Queue(1, b"a", Ok(())),
            Step::Feed(&[b"\x00\x00\x02\x01\x04\x00\x00\x00\x01\x88\x88"]),
            Step::Tells(&[Told::Reset(1, 1)]),
            Step::Writes(&[b"\x00\x00\x04\x03\x00\x00\x00\x00\x01\x00\x00\x00\x01"]),
            Step::Queued(1, 0),
            Step::Closed(1, true),
            Step::Over(None),
        ],
    ),
    (
        "an interim response",
        Role::Client,
        &[
            Step::Feed(&[SETTINGS]),
            Step::Begin(Ok(1)),
            Step::Feed(&[b"\x00\x00\x05\x01\x04\x00\x00\x00\x01\x48\x03\x31\x30\x30"]),
            Step::Tells(&[]),
            Step::Feed(&[b"\x00\x00\x01\x01\x04\x00\x00\x00\x01\x88"]),
            Step::Tells(&[Told::Head(1, 1)]),
        ],
    ),
    (
        "an interim response that is malformed",
        Role::Client,
        &[
            Step::Feed(&[SETTINGS]),
            Step::Begin(Ok(1)),
            Step::Writes(&[CLIENT_OPENS, ACKNOWLEDGED, REQUEST]),
            Step::Feed(&[b"\x00\x00\x0a\x01\x04\x00\x00\x00\x01\x08\x03103\x00\x01A\x01x"]),
            Step::Tells(&[Told::Reset(1, 1)]),
            Step::Writes(&[b"\x00\x00\x04\x03\x00\x00\x00\x00\x01\x00\x00\x00\x01"]),
            Step::Closed(1, true),
            Step::Over(None),
        ],
    ),
    (
        "streams with text take turns",
        Role::Client,
        &[
            Step::Feed(&[SETTINGS]),
            Step::Begin(Ok(1)),
            Step::Begin(Ok(3)),
            Step::WritesSoMany(92),
            Step::QueueLong(1, 32_768),
            Step::QueueLong(3, 32_768),
            Step::Fill,
            Step::WritesSoMany(16_393),
            Step::Queued(1, 16_384),
            Step::Queued(3, 32_768),
            Step::Fill,
            Step::WritesSoMany(16_393),
            Step::Queued(1, 16_384),
            Step::Queued(3, 16_384),
        ],
    ),
    (
        "what is over a whole number of frames goes first, and all in one write",
        Role::Client,
        &[
            Step::Feed(&[SETTINGS]),
            Step::Begin(Ok(1)),
            Step::WritesSoMany(80),
            Step::QueueLong(1, 16_400),
            Step::Fill,
            Step::WritesSoMany(16_418),
            Step::Queued(1, 0),
            Step::Fill,
            Step::WritesSoMany(0),
        ],
    ),
    (
        "another preface",
        Role::Server,
        &[
            Step::Feed(&[b"PRI * "]),
            Step::Held(6),
            Step::Feed(&[b"http"]),
            Step::Over(Some(1)),
            Step::Tells(&[Told::Closed(1)]),
        ],
    ),
];
