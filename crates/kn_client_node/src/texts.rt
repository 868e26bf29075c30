//! Why an app is closed by the client itself.

ghost use Rattle.std.specs.Prelude.{◌≡◌};
ghost use Rattle.kn_client_node.specs.Texts as spec;
ghost use Rattle.kn_client_node.specs.Nodes as node;

#[tactic(auto, unfolding(crate::specs::Texts::server_lost))]
pub fn server_lost() -> &'static str
    ensures { result.now ≡ spec.server_lost }
{
    "server lost"
}

#[tactic(auto, unfolding(crate::specs::Texts::stream_ended))]
pub fn stream_ended() -> &'static str
    ensures { result.now ≡ spec.stream_ended }
{
    "stream ended"
}

#[tactic(auto, unfolding(crate::specs::Texts::client_busy))]
pub fn client_busy() -> &'static str
    ensures { result.now ≡ spec.client_busy }
{
    "client busy"
}

#[tactic(auto, unfolding(crate::specs::Texts::too_many_streams))]
pub fn too_many_streams() -> &'static str
    ensures { result.now ≡ spec.too_many_streams }
{
    "too many streams"
}

/// What apps are told where their stream is over.
pub fn end_text(live: bool) -> &'static str
    ensures { result.now ≡ node.end_text live }
{
    if live { stream_ended() } else { server_lost() }
}
