// The steps: a tunnel through the server's gate of CONNECT, one through a client, and the end of all three processes.
use crate::children::{Children, ended, ends_well, start};
use crate::sockets::{accept, ask, closes, connect, connect_once, pass, pause};
use std::io;
use std::net::{Ipv4Addr, SocketAddr, TcpListener, TcpStream};

const BYTES: usize = 100_000;

const AGENTS: u16 = 8_091;

const CLIENTS: u16 = 8_090;

const CONNECT: u16 = 8_131;

const APPS: u16 = 9_000;

/// The addresses of a run. They are of this machine's loopback, and no other run has them at the same time: their
/// last two numbers are those of a port that the run holds.
#[derive(Drop)]
pub struct Scene {
    place: Ipv4Addr,
    // Held until the end.
    port: TcpListener,
    destination: TcpListener,
    target: SocketAddr,
}

/// The open ends of one tunnel.
#[derive(Drop)]
struct Tunnel {
    app: TcpStream,
    destination: TcpStream,
}

impl Tunnel {
    fn carries(&mut self, rt: &HostRuntime) -> bool {
        pass(rt, &mut self.app, &mut self.destination, BYTES)
            && pass(rt, &mut self.destination, &mut self.app, BYTES)
    }
}

fn said(rt: &HostRuntime, done: bool, step: &str) -> io::Result<bool> {
    if done {
        println!(rt; "{step}")?;
    } else {
        println!(rt; "not done: {step}")?;
    }
    Ok(done)
}

impl Scene {
    /// Takes a place of its own, and listens there as the destination.
    pub fn set(rt: &HostRuntime) -> io::Result<Scene> {
        let port = TcpListener::bind(rt, SocketAddr::from((Ipv4Addr::LOCALHOST, 0)))?;
        let [high, low] = port.local_addr()?.port().to_be_bytes();
        let place = Ipv4Addr::new(127, 77, high, low);
        let destination = TcpListener::bind(rt, SocketAddr::from((place, 0)))?;
        destination.set_nonblocking(true)?;
        let target = destination.local_addr()?;
        Ok(Scene {
            place,
            port,
            destination,
            target,
        })
    }

    fn at(&self, port: u16) -> SocketAddr {
        SocketAddr::from((self.place, port))
    }

    fn text(&self, rt: &HostRuntime, port: u16) -> io::Result<String> {
        Ok(format!(in rt.alloc(); "{}", self.at(port))?)
    }

    /// Goes through the steps as long as each is done.
    pub fn play(&self, rt: &HostRuntime, children: &mut Children) -> io::Result<bool> {
        let _held = &self.port;
        let server = self.start_server(rt, children)?;
        if !said(rt, server, "the server takes clients")? {
            return Ok(false);
        }
        let Some(first) = self.first_tunnel(rt, children)? else {
            return said(rt, false, "the agent dials for a request of CONNECT");
        };
        said(rt, true, "the agent dials for a request of CONNECT")?;
        self.play_on(rt, children, first)
    }

    fn play_on(
        &self,
        rt: &HostRuntime,
        children: &mut Children,
        first: Tunnel,
    ) -> io::Result<bool> {
        let mut first = first;
        let carried = first.carries(rt);
        if !said(rt, carried, "100000 bytes went each way")? {
            return Ok(false);
        }
        let Some(mut second) = self.second_tunnel(rt, children)? else {
            return said(rt, false, "the client takes an app");
        };
        said(rt, true, "the client takes an app")?;
        let carried = second.carries(rt);
        if !said(
            rt,
            carried,
            "100000 bytes went each way beside the first tunnel",
        )? {
            return Ok(false);
        }
        let closed = close(rt, first) && close(rt, second);
        if !said(rt, closed, "both tunnels are closed")? {
            return Ok(false);
        }
        self.play_out(rt, children)
    }

    fn play_out(&self, rt: &HostRuntime, children: &mut Children) -> io::Result<bool> {
        let agent = ends_well(rt, &mut children.agent);
        if !said(rt, agent, "the agent ended with status 0")? {
            return Ok(false);
        }
        let client = ends_well(rt, &mut children.client);
        if !said(rt, client, "the client ended with status 0")? {
            return Ok(false);
        }
        let server = self.wear_out(rt, children)?;
        said(rt, server, "the server ended with status 0")
    }

    fn start_server(&self, rt: &HostRuntime, children: &mut Children) -> io::Result<bool> {
        let agents = self.text(rt, AGENTS)?;
        let clients = self.text(rt, CLIENTS)?;
        let gate = self.text(rt, CONNECT)?;
        children.server = start(
            rt,
            &[
                "server",
                "--agents",
                agents.as_str(),
                "--clients",
                clients.as_str(),
                "--connect",
                gate.as_str(),
                "--tunnels",
                "5000",
            ],
        )?;
        Ok(connect(rt, self.at(CLIENTS)).is_some())
    }

    fn head(&self, rt: &HostRuntime) -> io::Result<String> {
        let target = self.target;
        Ok(format!(in rt.alloc(); "CONNECT {target} HTTP/1.1\r\n\r\n")?)
    }

    fn first_tunnel(
        &self,
        rt: &HostRuntime,
        children: &mut Children,
    ) -> io::Result<Option<Tunnel>> {
        let agents = self.text(rt, AGENTS)?;
        children.agent = start(
            rt,
            &["agent", "--server", agents.as_str(), "--tunnels", "2"],
        )?;
        let head = self.head(rt)?;
        for _ in 0..2_000 {
            let Some(mut app) = connect(rt, self.at(CONNECT)) else {
                return Ok(None);
            };
            if ask(rt, &mut app, head.as_str()) == Some(*b"200") {
                return Ok(self.tunnel(rt, app));
            }
            pause(rt, 50);
        }
        Ok(None)
    }

    fn tunnel(&self, rt: &HostRuntime, app: TcpStream) -> Option<Tunnel> {
        let destination = accept(rt, &self.destination)?;
        Some(Tunnel { app, destination })
    }

    fn second_tunnel(
        &self,
        rt: &HostRuntime,
        children: &mut Children,
    ) -> io::Result<Option<Tunnel>> {
        let clients = self.text(rt, CLIENTS)?;
        let apps = self.text(rt, APPS)?;
        let target = format!(in rt.alloc(); "{}", self.target)?;
        children.client = start(
            rt,
            &[
                "client",
                "--server",
                clients.as_str(),
                "--listen",
                apps.as_str(),
                "--address",
                target.as_str(),
                "--tunnels",
                "1",
            ],
        )?;
        match connect(rt, self.at(APPS)) {
            Some(app) => Ok(self.tunnel(rt, app)),
            None => Ok(None),
        }
    }

    // Asks the server again and again, whatever it replies, until it is gone.
    fn wear_out(&self, rt: &HostRuntime, children: &mut Children) -> io::Result<bool> {
        let head = self.head(rt)?;
        for _ in 0..10_000 {
            if let Some(status) = ended(&mut children.server) {
                return Ok(status == Some(0));
            }
            match connect_once(rt, self.at(CONNECT)) {
                Ok(mut app) => {
                    let _ = ask(rt, &mut app, head.as_str());
                }
                Err(_) => pause(rt, 10),
            }
        }
        Ok(false)
    }
}

// The app closes, and its destination hears of it.
fn close(rt: &HostRuntime, tunnel: Tunnel) -> bool {
    let Tunnel { app, destination } = tunnel;
    drop(app);
    let mut destination = destination;
    closes(rt, &mut destination, 50_000)
}
