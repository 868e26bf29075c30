//! What holds of every world of packets: after every list of moves from the start.

ghost use Rattle.std.specs.Prelude.{◌≡◌, ◌∷◌, ℕ, pos, List, [], None, Some, false, true};
ghost use Rattle.kn_packet.specs.declared.packet.Packet.{Packet};
ghost use Rattle.kn_route.specs.declared.strategy.Strategy.{Strategy};
ghost use Rattle.kn_server_core.specs.Server.{step};
ghost use Rattle.kn_server_core.specs.declared.event.ServerEvent.TheVariants.{LinkPacket};
ghost use Rattle.kn_tables.specs.Holding.{is_held};
ghost use Rattle.kn_tables.specs.Lists.{first_where};
ghost use Rattle.kn_edge_core.specs.declared.connection.Connection.{Connection};
ghost use Rattle.kn_packets.specs.Keys.{Keys};
ghost use Rattle.kn_packets.specs.Moves.{Makes, Move, start};
ghost use Rattle.kn_packets.specs.Outcome.{Accounted, AllReached, Delivered, IsClosed, IsEmpty, IsIn, IsQuiet, IsReplied};
ghost use Rattle.kn_packets.specs.Outputs.{is_cut};
ghost use Rattle.kn_packets.specs.Owned.{Owned};
ghost use Rattle.kn_packets.specs.Phases.{Phases};
ghost use Rattle.kn_packets.specs.Places.{Places};
ghost use Rattle.kn_packets.specs.World.{World};

/// The facts on keys hold, each connection of an agent is of a dial, and the tunnel of each app is where a run of one tunnel leads: so all that is
/// proved of one tunnel holds of each of them.
pub fn everything_holds()
    ensures keys { (strategies : List Strategy) (ms : List Move) (w : World) → Makes (start strategies) ms w → Keys w }
    ensures owned { (strategies : List Strategy) (ms : List Move) (w : World) → Makes (start strategies) ms w → Owned w }
    ensures reached { (strategies : List Strategy) (ms : List Move) (w : World) → Makes (start strategies) ms w → AllReached w }
{}

/// What an app got is the beginning of what its dial's destination sent, and what that got is the beginning of what the app sent. An app that has no
/// dial yet got nothing.
pub fn delivered_is_a_prefix()
    ensures delivered { (strategies : List Strategy) (ms : List Move) (w : World) → Makes (start strategies) ms w
        → (k d : ℕ) → (w.apps k).came ≡ true → (w.apps k).dial ≡ Some d → Delivered w k d }
    ensures undialled { (strategies : List Strategy) (ms : List Move) (w : World) → Makes (start strategies) ms w
        → (k : ℕ) → (w.apps k).came ≡ true → (w.apps k).dial ≡ None → (w.apps k).side.got ≡ [] }
{}

/// Each tunnel is in its tables, its dial's number stands in one place at most, and its bytes fit. And each packet in a list names what is of that
/// list: on a link a connectID that was drawn there, on a client's stream the dial of an app of that stream.
pub fn phases_hold()
    ensures phases { (strategies : List Strategy) (ms : List Move) (w : World) → Makes (start strategies) ms w → Phases w }
    ensures places { (strategies : List Strategy) (ms : List Move) (w : World) → Makes (start strategies) ms w → Places w }
{}

/// Every connection on an agent's list has its open entry at the server, a reply or a request to close on the way, lingers, or the server lost the link.
pub fn connections_are_accounted_for()
    ensures accounted { (strategies : List Strategy) (ms : List Move) (w : World) → Makes (start strategies) ms w
        → (l : ℕ) (x : Connection) → IsIn x (w.agents l).connections → Accounted w l x }
{}

/// A reply on its way names no connection that the server holds. So by its rules the server never cuts a link for a second reply.
pub fn no_link_is_cut()
    ensures new { (strategies : List Strategy) (ms : List Move) (w : World) → Makes (start strategies) ms w
        → (l cid : ℕ) → IsReplied w l cid → first_where (is_held l (pos cid)) w.server.held ≡ None }
    ensures uncut { (strategies : List Strategy) (ms : List Move) (w : World) → Makes (start strategies) ms w
        → (l : ℕ) (p : Packet) (rest : List Packet) → (w.links l).up ≡ p ∷ rest → (i : ℕ) → is_cut i (step w.server (LinkPacket l p)).outs ≡ false }
{}

/// Once a world is quiet and closed, the server has no entry, and no agent a dial or a connection.
pub fn quiet_closed_worlds_are_empty()
    ensures emptied { (strategies : List Strategy) (ms : List Move) (w : World) → Makes (start strategies) ms w → IsQuiet w → IsClosed w → IsEmpty w }
{}
