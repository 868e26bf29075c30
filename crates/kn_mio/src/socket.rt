ghost use Rattle.std.specs.Prelude.{◌<◌, IfSome, length};
ghost use Rattle.kn_port.specs.Answers.{GotFits, TookFits};
ghost use Rattle.kn_mio.specs.Inner.{GotIsSound, TookIsSound};

use crate::rounds::Rounds;
use crate::trouble::Trouble;
use kn_port::{PortGot, Took};
use mio::net::{TcpListener, TcpStream};
use mio::{Interest, Registry, Token};
use std::alloc::Global;
use std::io;
use std::io::{ErrorKind, Read, Write};
use std::net::{Net, SocketAddr, ToSocketAddrs};

// How often a call is tried again that a signal cut off.
pub(crate) const TRIES: u32 = 16;

/// A connection, or one that is begun.
#[derive(Drop)]
pub(crate) struct Socket {
    pub(crate) stream: TcpStream,
    /// The addresses that a dial has not tried yet, the next one last.
    pub(crate) later: Vec<SocketAddr>,
    pub(crate) rounds: Rounds,
}

/// What came of a dial.
#[derive(Clone, Copy, Debug, PartialEq, Eq)]
pub(crate) enum Progress {
    Up,
    Pending,
    Refused,
}

impl Socket {
    pub(crate) fn new(stream: TcpStream, later: Vec<SocketAddr>) -> Socket {
        Socket {
            stream,
            later,
            rounds: Rounds::new(),
        }
    }

    /// Whether the dial under way has come to its end. The system tells a failure once.
    pub(crate) fn progress(&self) -> Progress {
        match self.stream.take_error() {
            Ok(None) => {}
            Ok(Some(_)) | Err(_) => return Progress::Refused,
        }
        match self.stream.peer_addr() {
            Ok(_) => Progress::Up,
            Err(error) if error.kind() == io::ErrorKind::NotConnected => Progress::Pending,
            Err(_) => Progress::Refused,
        }
    }
}

/// `None` is a fault.
pub(crate) fn read(mut stream: &TcpStream, room: &mut [u8]) -> Option<PortGot>
    requires room { 0 < length room.old }
    ensures fits { IfSome result (λ got. GotFits got (length room.old)) }
    ensures sound { IfSome result GotIsSound }
{
    for _ in 0..TRIES {
        match stream.read(room) {
            Ok(0) => return Some(PortGot::End),
            Ok(count) => return Some(PortGot::Bytes(count)),
            Err(error) if error.kind() == ErrorKind::WouldBlock => {
                return Some(PortGot::NotYet);
            }
            Err(error) if error.kind() == ErrorKind::Interrupted => {}
            Err(_) => return None,
        }
    }
    None
}

/// `None` is a fault, as is a write that takes nothing.
pub(crate) fn write(mut stream: &TcpStream, bytes: &[u8]) -> Option<Took>
    ensures fits { IfSome result (λ took. TookFits took (length bytes.now)) }
    ensures sound { IfSome result TookIsSound }
{
    for _ in 0..TRIES {
        match stream.write(bytes) {
            Ok(0) => return None,
            Ok(count) => return Some(Took::Bytes(count)),
            Err(error) if error.kind() == ErrorKind::WouldBlock => return Some(Took::NotYet),
            Err(error) if error.kind() == ErrorKind::Interrupted => {}
            Err(_) => return None,
        }
    }
    None
}

/// The addresses of a name, the first one last.
pub(crate) fn addresses<R: Net>(
    rt: &R,
    alloc: Global,
    address: &str,
) -> Result<Vec<SocketAddr>, Trouble> {
    let mut found = Vec::new(alloc);
    for each in address.to_socket_addrs(rt)? {
        found.push(each)?;
    }
    found.reverse();
    Ok(found)
}

/// Begins to connect to the next address that does not refuse at once.
pub(crate) fn begin<R: Net>(
    rt: &R,
    registry: &Registry,
    token: Token,
    mut later: Vec<SocketAddr>,
) -> Result<Socket, Trouble> {
    for _ in 0..later.len() {
        let Some(address) = later.pop() else {
            break;
        };
        if let Ok(stream) = begin_one(rt, registry, token, address) {
            return Ok(Socket::new(stream, later));
        }
    }
    Err(Trouble::Fault)
}

fn begin_one<R: Net>(
    rt: &R,
    registry: &Registry,
    token: Token,
    address: SocketAddr,
) -> io::Result<TcpStream> {
    let mut stream = TcpStream::connect(rt, address)?;
    enrol(registry, token, &mut stream)?;
    Ok(stream)
}

/// Small pieces go out at once, and each change of the stream is named by a wait.
pub(crate) fn enrol(registry: &Registry, token: Token, stream: &mut TcpStream) -> io::Result<()> {
    stream.set_nodelay(true)?;
    registry.register(stream, token, Interest::READABLE | Interest::WRITABLE)
}

/// Listens at the first address of the name that can be had.
pub(crate) fn listener<R: Net>(
    rt: &R,
    registry: &Registry,
    token: Token,
    mut later: Vec<SocketAddr>,
) -> Result<TcpListener, Trouble> {
    for _ in 0..later.len() {
        let Some(address) = later.pop() else {
            break;
        };
        if let Ok(mut listener) = TcpListener::bind(rt, address) {
            registry.register(&mut listener, token, Interest::READABLE)?;
            return Ok(listener);
        }
    }
    Err(Trouble::Fault)
}
