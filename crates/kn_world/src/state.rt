ghost use Rattle.std.specs.Prelude.{◌≡◌};
ghost use Rattle.kn_world.specs.States.{new_side, new_agent, new_client, new_door, new_app, new_dial, start};

use crate::flow::Flow;
use crate::numbered::Numbered;
use crate::packets::Packets;
use crate::parts::{Agent, App, AppChoice, Client, Dial, Door, Home, Owner, Side, Stage};
use kn_connect::ConnectFront;
use kn_edge_core::{AgentCore, ClientCore};
use kn_io::Text;
use kn_route::Strategies;
use kn_server_core::ServerCore;
use std::alloc::Global;

/// All that a world holds. Agents, clients, apps and dials are numbered from 1.
#[derive(Drop)]
pub struct State {
    pub server: ServerCore,
    pub agents: Numbered<Agent>,
    pub clients: Numbered<Client>,
    pub apps: Numbered<App>,
    pub dials: Numbered<Dial>,
    /// To whom each front of the server belongs, by its number.
    pub fronts: Numbered<Owner>,
    /// The choices that the server came to, in their order.
    pub choices: Numbered<AppChoice>,
}

impl Side {
    pub fn new(alloc: Global) -> Side
        ensures { result ≡ new_side }
    {
        Side {
            sending: Flow::new(alloc),
            coming: Flow::new(alloc),
            ended: false,
            end_given: false,
            held: false,
        }
    }
}

impl Agent {
    pub fn new(alloc: Global) -> Agent
        ensures { result ≡ new_agent }
    {
        Agent {
            core: AgentCore::new(alloc),
            up: Packets::new(alloc),
            down: Packets::new(alloc),
            at_server: true,
            at_agent: true,
            cut: false,
            drained: false,
            connections: Numbered::new(alloc),
        }
    }
}

impl Client {
    pub fn new(alloc: Global, front: u64) -> Client
        ensures { result ≡ new_client front }
    {
        Client {
            core: ClientCore::new(alloc),
            up: Packets::new(alloc),
            down: Packets::new(alloc),
            front,
            at_server: true,
            at_client: true,
            apps: Numbered::new(alloc),
        }
    }
}

impl Door {
    pub fn new(alloc: Global) -> Door
        ensures { result ≡ new_door }
    {
        Door {
            front: ConnectFront::new(alloc),
            number: 0,
            at_server: false,
            early: Packets::new(alloc),
            reply: 0,
            closing: false,
        }
    }
}

impl App {
    pub fn new(alloc: Global, home: Home) -> App
        ensures { result ≡ new_app home }
    {
        App {
            home,
            stage: Stage::Dialling,
            dial: 0,
            error: Text::new(alloc),
            side: Side::new(alloc),
            door: Door::new(alloc),
        }
    }
}

impl Dial {
    pub fn new(alloc: Global, link: u64, app: u64) -> Dial
        ensures { result ≡ new_dial link app }
    {
        Dial {
            link,
            app,
            handled: false,
            ticket: 0,
            connect_id: 0,
            side: Side::new(alloc),
        }
    }
}

impl State {
    pub fn new(alloc: Global, strategies: Strategies) -> State
        ensures { result ≡ start strategies }
    {
        State {
            server: ServerCore::new(alloc, strategies),
            agents: Numbered::new(alloc),
            clients: Numbered::new(alloc),
            apps: Numbered::new(alloc),
            dials: Numbered::new(alloc),
            fronts: Numbered::new(alloc),
            choices: Numbered::new(alloc),
        }
    }
}
