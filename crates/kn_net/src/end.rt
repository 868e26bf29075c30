ghost use Rattle.std.specs.Prelude.{◌≡◌};
ghost use Rattle.kn_net.specs.Told.{told, Tells};
ghost use Rattle.kn_net.specs.Ends as spec;

use kn_io::Sink;

/// How a program that uses the network ends.
#[derive(Clone, Copy, Debug, PartialEq, Eq)]
pub enum End {
    /// As many tunnels ended as were asked for, and all was written.
    Done,
    /// The words are not those of a program that uses the network.
    Usage,
    /// Memory ran out.
    NoMemory,
    /// An address could not be listened on.
    CannotListen,
    /// Waiting for the network failed.
    WaitFault,
    /// The server of an agent or a client was lost.
    ServerLost,
    /// The turn of the number that was asked for was made.
    TurnBound,
}

impl End {
    /// The status of the process.
    pub fn number(self) -> u8
        ensures { result ≡ spec.number_of self }
    {
        match self {
            End::Done => 0,
            End::Usage => 2,
            End::NoMemory => 7,
            End::CannotListen => 8,
            End::WaitFault => 9,
            End::ServerLost => 10,
            End::TurnBound => 11,
        }
    }

    /// What is told of it on the error output.
    #[tactic(auto, unfolding(crate::specs::Ends::message_of))]
    fn message(self) -> &'static [u8]
        ensures { result.now ≡ spec.message_of self }
    {
        match self {
            End::Done => b"",
            End::Usage => b"kn: usage\n",
            End::NoMemory => b"kn: no memory\n",
            End::CannotListen => b"kn: cannot listen\n",
            End::WaitFault => b"kn: wait fault\n",
            End::ServerLost => b"kn: server lost\n",
            End::TurnBound => b"kn: turn bound\n",
        }
    }
}

/// Tells the end's message, where it has one.
pub(crate) fn tell<E: Sink>(err: &mut E, end: End)
    ensures { spec.TellsEnd end (told (E.faults err.old) (E.written err.old)) (told (E.faults err.new) (E.written err.new)) }
{
    match end {
        End::Done => {}
        End::Usage
        | End::NoMemory
        | End::CannotListen
        | End::WaitFault
        | End::ServerLost
        | End::TurnBound => tell_message(err, end.message()),
    }
}

fn tell_message<E: Sink>(err: &mut E, message: &[u8])
    ensures { Tells (told (E.faults err.old) (E.written err.old)) (told (E.faults err.new) (E.written err.new)) message.now }
{
    let _ = err.write(message);
}
