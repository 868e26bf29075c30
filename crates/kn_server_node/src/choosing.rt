//! What is done next.

ghost use Rattle.std.specs.Prelude.{◌≡◌, [], None, MatchOption};
ghost use Rattle.kn_server_node.specs.Least.{is_before, earlier, better, least_from, least_of, of_inlets, streams_in, can_in};
ghost use Rattle.kn_rising.specs.Members.{at};
ghost use Rattle.kn_server_node.specs.Tasks.{NoneCan, IsLeastToHandle, IsDone, MayMake};

use crate::candidate::Candidate;
use crate::end::End;
use crate::node::Node;
use crate::pauses::can_handle;
use crate::task::Task;
use kn_ends::Inlet;

fn is_before(a: Candidate, b: Candidate) -> bool
    ensures { result ≡ is_before a b }
{
    a.conn < b.conn || (a.conn == b.conn && a.stream < b.stream)
}

fn earlier(best: Option<Candidate>, x: Candidate) -> Option<Candidate>
    ensures { result ≡ earlier best x }
{
    match best {
        None => Some(x),
        Some(b) => { if is_before(x, b) { Some(x) } else { Some(b) } }
    }
}

fn better(node: &Node, best: Option<Candidate>, x: Candidate) -> Option<Candidate>
    ensures { result ≡ better (can_in node.now) best x }
{
    if can_handle(node, x) {
        earlier(best, x)
    } else {
        best
    }
}

/// The least of the streams of a connection that has something to handle, or the best before.
fn least_in(node: &Node, best: Option<Candidate>, conn: u64, inlets: &[Inlet]) -> Option<Candidate>
    ensures { result ≡ least_from (can_in node.now) best (of_inlets conn inlets.now) }
{
    let mut best = best;
    for inlet in inlets {
        best = better(
            node,
            best,
            Candidate {
                conn,
                stream: inlet.stream,
            },
        );
    }
    best
}

fn least_on(node: &Node, best: Option<Candidate>, conn: u64) -> Option<Candidate>
    ensures { result ≡ least_from (can_in node.now) best (streams_in conn (at node.now.ends conn)) }
{
    match node.ends.get(conn) {
        Some(End::Streams { carrier, .. }) => {
            least_in(node, best, conn, carrier.inlets.as_slice())
        }
        Some(End::Connect { .. }) => better(node, best, Candidate { conn, stream: 0 }),
        None => best,
    }
}

/// The least of the streams of these connections that has something to handle.
fn least_among(node: &Node, conns: &[u64]) -> Option<Candidate>
    ensures { result ≡ least_of node.now None conns.now }
{
    let mut best = None;
    for conn in conns {
        best = least_on(node, best, *conn);
    }
    best
}

/// The least of the streams that has something to handle.
fn least(node: &Node) -> Option<Candidate>
    ensures { MatchOption result (NoneCan node.now) (λ x. IsLeastToHandle node.now x) }
{
    let conns = node.ends.ready();
    least_among(node, conns)
}

fn next_handled(node: &Node) -> Option<Task>
    requires followed { node.now.todo ≡ [] }
    requires heard { node.now.told ≡ [] }
    ensures { MatchOption result (IsDone node.now) (λ task. MayMake node.now task) }
{
    match least(node) {
        Some(x) => Some(Task::Handle {
            conn: x.conn,
            stream: x.stream,
        }),
        None => None,
    }
}

/// What may be made next, but for writing and forgetting.
pub fn next(node: &Node) -> Option<Task>
    ensures { MatchOption result (IsDone node.now) (λ task. MayMake node.now task) }
{
    if !node.todo.is_empty() {
        Some(Task::Follow)
    } else if !node.told.is_empty() {
        Some(Task::Hear)
    } else {
        next_handled(node)
    }
}
