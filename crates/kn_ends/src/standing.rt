//! How a connection stands: what its socket is to be told, what it told, and whether anything is under way on it.

ghost use Rattle.std.specs.Prelude.{◌≡◌, ◌≤◌, [], ◌∷◌, length, MatchOption};
ghost use Rattle.kn_h2_state.specs.Calls.{is_closed, queue_of};
ghost use Rattle.kn_ends.specs.Carriers as carriers;

use crate::carrier::Carrier;
use crate::inlet::Inlet;
use kn_h2::H2Event;
use kn_h2_state::Events;
use std::alloc::Global;

/// It was not lost, and has not failed.
pub fn is_live(carrier: &Carrier) -> bool
    ensures { result ≡ carriers.is_live carrier.now }
{
    !carrier.lost && carrier.conn.over().is_none()
}

/// It was lost, or it failed and all is written.
pub fn is_gone(carrier: &Carrier) -> bool
    ensures { result ≡ carriers.is_gone carrier.now }
{
    carrier.lost || (carrier.conn.over().is_some() && carrier.conn.out().is_empty())
}

/// The stream of somebody may still be open.
pub fn counts(carrier: &Carrier, stream: u32) -> bool
    ensures { result ≡ carriers.counts stream carrier.now }
{
    is_live(carrier) && !carrier.conn.closed(stream)
}

/// What waits for the socket. At a loss what is left of it is dropped.
pub fn out(carrier: &Carrier) -> &[u8]
    ensures { result.now ≡ carriers.out_of carrier.now }
{
    if carrier.lost {
        &[]
    } else {
        carrier.conn.out()
    }
}

/// So many bytes went to the socket.
pub fn took(carrier: &mut Carrier, count: usize)
    requires { count ≤ length (carriers.out_of carrier.old) }
    ensures { carrier.new ≡ carriers.took count carrier.old }
{
    if !carrier.lost {
        carrier.conn.took(count);
    }
}

/// The connection was lost.
pub fn lose(carrier: &mut Carrier)
    ensures { carrier.new ≡ carriers.with_loss carrier.old }
{
    carrier.lost = true;
}

/// Takes the first of what it told.
pub fn next_told(carrier: &mut Carrier) -> Option<H2Event>
    ensures { MatchOption result
        ((carrier.old.conn.state.events ≡ []) × (carrier.new ≡ carrier.old))
        (λ event. carrier.old ≡ carriers.events_then (event ∷ carrier.new.conn.state.events) carrier.new) }
{
    carrier.conn.next_event()
}

/// Takes all that it told, in one piece.
pub fn take_told(carrier: &mut Carrier, alloc: Global) -> Events
    ensures told { result ≡ carrier.old.conn.state.events }
    ensures left { carrier.new ≡ carriers.without_events carrier.old }
{
    carrier.conn.take_events(alloc)
}

/// How many bytes wait to be sent on a stream.
pub fn queued(carrier: &Carrier, stream: u32) -> usize
    ensures { result ≡ length (queue_of carrier.now.conn.state stream) }
{
    carrier.conn.queued(stream)
}

fn is_bare_inlet(carrier: &Carrier, inlet: &Inlet) -> bool
    ensures { result ≡ carriers.is_bare_inlet carrier.now inlet.now }
{
    inlet.messages.is_empty() && carrier.conn.text(inlet.stream).is_empty()
}

fn are_bare(carrier: &Carrier) -> bool
    ensures { result ≡ carriers.are_bare carrier.now carrier.now.inlets }
{
    for inlet in carrier.inlets.as_slice() {
        if !is_bare_inlet(carrier, inlet) {
            return false;
        }
    }
    true
}

fn is_idle(carrier: &Carrier) -> bool
    ensures { result ≡ carriers.is_idle carrier.now.conn.state carrier.now.conn.cutter.rest }
{
    carrier.conn.unsent() == 0 && carrier.conn.held() == 0
}

/// Nothing is under way on it: it was lost, or nothing waits for its socket and it failed, or no bytes are queued, and of what
/// came no part of a frame, no message or part of one, and no text is kept.
pub fn is_bare(carrier: &Carrier) -> bool
    ensures { result ≡ carriers.is_bare carrier.now }
{
    carrier.lost
        || (carrier.conn.out().is_empty()
            && (carrier.conn.over().is_some() || (is_idle(carrier) && are_bare(carrier))))
}
