//! Dials are handed out.

ghost use Rattle.std.specs.Prelude.{◌≡◌, [], MatchOption};
ghost use Rattle.kn_rising.specs.Members.{change};
ghost use Rattle.kn_agent_node.specs.Calls as call;

use crate::dialling::Dialling;
use crate::node::Node;
use kn_io::Text;
use kn_rising::Rising;

fn note_handed(by_ticket: &mut Rising<Dialling>, ticket: u64)
    ensures { by_ticket.new ≡ change by_ticket.old ticket call.handed_out }
{
    if let Some(dialling) = by_ticket.get_mut(ticket) {
        *dialling = Dialling::HandedOut;
    }
}

/// The first of the dials that wait.
pub fn next_dial(node: &mut Node) -> Option<(u64, Text)>
    ensures first { MatchOption result ((node.old.dials ≡ []) × (node.new ≡ node.old)) (λ dial. call.HandsOut node.old dial.0 dial.1 node.new) }
    ensures top { node.new.top ≡ node.old.top }
{
    match node.dials.pop() {
        Some(request) => {
            note_handed(&mut node.by_ticket, request.ticket);
            Some((request.ticket, request.address))
        }
        None => None,
    }
}
