/// The answer to `--version`.
pub(crate) const VERSION: &str = "kn 0.1.0\n";

/// The answer to `--help`.
pub(crate) const ABOUT: &str = "\
kn: tunnels from clients to destinations that only agents can dial (Konnectivity, KEP-1281)

Over the network, until they are stopped:
  kn server --agents A --clients A [--connect A] [--strategies LIST] [--id TEXT] [--tunnels N] [--turns N]
  kn agent --server A [--id TEXT] [--identifiers TEXT] [--drain N] [--tunnels N] [--turns N]
  kn client --server A --listen A --address HOST:PORT [--tunnels N] [--turns N]

From standard input to standard output:
  kn replay LIST               runs a script in one process, and reports it
  kn show                      shows one packet
  kn frames                    lists the frames of one direction of HTTP/2
  kn route LIST ADDRESS D      chooses a link for dial D; the input has the identifiers of each link on a line

About itself:
  kn server --help, kn agent --help, kn client --help
  kn --help, kn --version

The status is
  0   it did what was asked
  2   the command line is faulty (kn: usage)
  3   the input breaks its grammar (kn: line N: REASON, kn: offset N: REASON)
  4   the input could not be read (kn: read fault)
  5   the output could not be written (kn: write fault)
  6   the input is too long (kn: input too long)
  7   memory ran out (kn: no memory)
  8   an address could not be listened on (kn: cannot listen)
  9   waiting for the network failed (kn: wait fault)
  10  the server was lost, or could not be reached (kn: server lost)
  11  the number of turns was reached (kn: turn bound)
What stands in brackets is all that goes to the error output.
";

/// The answer to `server --help`.
pub(crate) const ABOUT_SERVER: &str = "\
kn server --agents A --clients A [--connect A] [--strategies LIST] [--id TEXT] [--tunnels N] [--turns N]

Takes agents and clients, and carries tunnels between them. It writes nothing while it runs, and runs until it is
stopped (Ctrl-C).

  --agents A          the address where agents connect
  --clients A         the address where clients connect
  --connect A         the address where requests of HTTP CONNECT come; without it there is none
  --strategies LIST   by what an agent is chosen for a dial, the first that finds one: destHost, defaultRoute and
                      default, with commas between them; default
  --id TEXT           the name of this server, at most 1,024 bytes; server
  --tunnels N         ends with status 0 once N tunnels ended; 0, which is never
  --turns N           ends with status 11 at its Nth turn; 0, which is never

A is IP:PORT or [IP]:PORT, as 127.0.0.1:8091 or [::1]:8091. A name in the place of IP is looked up by the system,
and everything waits meanwhile. N is decimal digits without a sign or a leading zero, at most 64 bits.

Nothing is encrypted and no peer is asked who it is: let only those reach the addresses who may.

The status is 0, 2 (kn: usage), 7 (kn: no memory), 8 (kn: cannot listen), 9 (kn: wait fault) or 11 (kn: turn bound).
";

/// The answer to `agent --help`.
pub(crate) const ABOUT_AGENT: &str = "\
kn agent --server A [--id TEXT] [--identifiers TEXT] [--drain N] [--tunnels N] [--turns N]

Calls a server, and dials the destinations that the server asks for. It writes nothing while it runs, and runs until
the server is lost or it is stopped (Ctrl-C). It does not call again: whoever starts it does.

  --server A          the address where the server takes agents
  --id TEXT           the name of this agent, at most 1,024 bytes; agent
  --identifiers TEXT  for which hosts it is, as host=db&ipv4=10.0.0.1&default-route=true, at most 10,240 bytes; none
  --drain N           takes no more dials after the Nth; 0, which is never
  --tunnels N         ends with status 0 once N tunnels ended; 0, which is never
  --turns N           ends with status 11 at its Nth turn; 0, which is never

A is IP:PORT or [IP]:PORT. A name in the place of IP, here or in a destination, is looked up by the system, and
everything waits meanwhile. N is decimal digits without a sign or a leading zero, at most 64 bits.

Nothing is encrypted: let the server be reached over a network that is trusted, or through a tunnel of TLS.

The status is 0, 2 (kn: usage), 7 (kn: no memory), 9 (kn: wait fault), 10 (kn: server lost) or 11 (kn: turn bound).
";

/// The answer to `client --help`.
pub(crate) const ABOUT_CLIENT: &str = "\
kn client --server A --listen A --address HOST:PORT [--tunnels N] [--turns N]

Takes connections, and carries each through the server and one of its agents to one destination. It writes nothing
while it runs, and runs until the server is lost or it is stopped (Ctrl-C).

  --server A            the address where the server takes clients
  --listen A            the address where apps connect
  --address HOST:PORT   the destination, as the agent is to dial it, at most 300 bytes
  --tunnels N           ends with status 0 once N tunnels ended; 0, which is never
  --turns N             ends with status 11 at its Nth turn; 0, which is never

A is IP:PORT or [IP]:PORT. A name in the place of IP is looked up by the system, and everything waits meanwhile; HOST
is looked up by the agent. N is decimal digits without a sign or a leading zero, at most 64 bits.

Nothing is encrypted: let the server be reached over a network that is trusted, or through a tunnel of TLS.

The status is 0, 2 (kn: usage), 7 (kn: no memory), 8 (kn: cannot listen), 9 (kn: wait fault), 10 (kn: server lost)
or 11 (kn: turn bound).
";
