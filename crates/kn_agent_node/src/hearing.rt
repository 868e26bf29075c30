//! What the connection told is heard.

ghost use Rattle.std.specs.Prelude.{◌≡◌, OnOk};
ghost use Rattle.kn_agent_node.specs.Steps as step;

use crate::node::Node;
use kn_ends::{note_end, note_reset, read};
use kn_h2::H2Event;
use kn_io::NoMemory;
use std::alloc::Global;

/// An event that the connection told.
#[tactic(auto, unfolding(crate::specs::Steps::heard))]
pub fn heard(alloc: Global, node: &mut Node, event: H2Event) -> Result<(), NoMemory>
    ensures { OnOk result (node.new ≡ step.heard event node.old) }
{
    match event {
        H2Event::Opened { .. } => Ok(()),
        H2Event::Head { stream: _, headers } => {
            node.answer = Some(headers);
            Ok(())
        }
        H2Event::Text { stream } => read(&mut node.carrier, stream),
        H2Event::Ended { stream } => {
            note_end(&mut node.carrier, stream);
            Ok(())
        }
        H2Event::Reset { stream, code: _ } => {
            note_reset(&mut node.carrier, alloc, stream);
            Ok(())
        }
        H2Event::Away { .. } => Ok(()),
        H2Event::Closed { .. } => {
            node.losing = true;
            Ok(())
        }
    }
}
