use crate::flow::Flow;
use crate::numbered::Numbered;
use crate::packets::Packets;
use kn_connect::ConnectFront;
use kn_edge_core::{AgentCore, ClientCore};
use kn_io::Text;
use kn_server_core::Choice;
use std::alloc::Global;

/// One side of a tunnel: an app, or the destination of a dial.
#[derive(Drop)]
pub struct Side {
    /// What it sent: its node was given those bytes that passed.
    pub sending: Flow,
    /// What its node wrote to it: it took those bytes that passed.
    pub coming: Flow,
    /// Whether it ended its sending.
    pub ended: bool,
    /// Whether its node was told so.
    pub end_given: bool,
    /// Whether it takes nothing.
    pub held: bool,
}

/// An agent and its link, with what is in flight on it.
#[derive(Drop)]
pub struct Agent {
    pub core: AgentCore,
    /// Packets to the server, and back.
    pub up: Packets,
    pub down: Packets,
    /// Whether the server has the link, and whether the agent has it.
    pub at_server: bool,
    pub at_agent: bool,
    /// Whether the server ended the link since the agent broke the rules.
    pub cut: bool,
    pub drained: bool,
    /// The dial of each connection, by connectID.
    pub connections: Numbered<u64>,
}

/// A client and its stream, with what is in flight on it.
#[derive(Drop)]
pub struct Client {
    pub core: ClientCore,
    /// Packets to the server, and back.
    pub up: Packets,
    pub down: Packets,
    /// The number of the stream at the server.
    pub front: u64,
    /// Whether the server has the stream, and whether the client has it.
    pub at_server: bool,
    pub at_client: bool,
    /// The app of each of the client's own numbers.
    pub apps: Numbered<u64>,
}

/// Where an app is connected.
#[derive(Clone, Copy, Debug, PartialEq, Eq)]
pub enum Home {
    /// At a client, which has a number of its own for it.
    Client { client: u64, number: u64 },
    /// At the server itself, by CONNECT.
    Connect,
}

/// How far an app has come, apart from what its client knows of it.
#[derive(Clone, Copy, Debug, PartialEq, Eq)]
pub enum Stage {
    Dialling,
    /// Its dial was answered without an error.
    Open,
    /// It left while it was dialling, with an error.
    Refused,
    Ended,
}

/// What there is of an app by CONNECT at the server.
#[derive(Drop)]
pub struct Door {
    /// The front that reads its head.
    pub front: ConnectFront,
    /// The number of its front, 0 before its head is whole.
    pub number: u64,
    /// Whether the server has the front.
    pub at_server: bool,
    /// Bytes that it was given, as packets that the server has not taken.
    pub early: Packets,
    /// How many bytes of the reply the app has still to take.
    pub reply: u8,
    /// Whether the server has ended the tunnel.
    pub closing: bool,
}

/// An app.
#[derive(Drop)]
pub struct App {
    pub home: Home,
    pub stage: Stage,
    /// The number of its dial, 0 where there is none.
    pub dial: u64,
    /// The error that it was told.
    pub error: Text,
    pub side: Side,
    pub door: Door,
}

/// A dial and its destination.
#[derive(Drop)]
pub struct Dial {
    pub link: u64,
    pub app: u64,
    /// Whether the agent has handled the request.
    pub handled: bool,
    /// The agent's number for it while it dials, 0 where it never did.
    pub ticket: u64,
    /// The connectID, 0 where the dial was not won.
    pub connect_id: i64,
    pub side: Side,
}

/// To whom a front of the server belongs.
#[derive(Clone, Copy, Debug, PartialEq, Eq)]
pub enum Owner {
    Client { client: u64 },
    App { app: u64 },
}

/// A choice of the server, and the app that asked for the dial.
#[derive(Drop)]
pub struct AppChoice {
    pub app: u64,
    pub choice: Choice,
}
