//! The laws of the moves at the far end of a stream: each is, for the tunnel of each app, one step or none.

ghost use Rattle.std.specs.Prelude.{◌≡◌, ◌∷◌, ℕ, ℤ, List, true};
ghost use Rattle.kn_packet.specs.declared.packet.Packet.{Packet};
ghost use Rattle.kn_packet.specs.declared.packet.Packet.TheVariants.{Data, DialRsp};
ghost use Rattle.kn_tunnel.specs.Steps.{start};
ghost use Rattle.kn_packets.specs.Keys.{Keys};
ghost use Rattle.kn_packets.specs.Lifts.{Lifts};
ghost use Rattle.kn_packets.specs.Moves.{AppSends, ClientTakes, ConnectComes, ConnectLeaves, ConnectTakes, DropsIn, DropsOut, JoinsIn, May, StreamBegins, StreamIsNumbered, after};
ghost use Rattle.kn_packets.specs.World.{World, tunnel};

/// A client takes an answer to a dial, or bytes.
pub fn client_takes_answers_and_bytes()
    ensures answers { (w : World) (f : ℕ) (error : List ℕ) (connect_id random : ℤ) (rest : List Packet) → Keys w → May (ClientTakes f) w
        → (w.streams f).down ≡ DialRsp error connect_id random ∷ rest → Lifts w (after (ClientTakes f) w) }
    ensures bytes { (w : World) (f : ℕ) (connect_id : ℤ) (error bytes : List ℕ) (rest : List Packet) → Keys w → May (ClientTakes f) w
        → (w.streams f).down ≡ Data connect_id error bytes ∷ rest → Lifts w (after (ClientTakes f) w) }
{}

/// A client takes the first packet of its stream, whatever it is.
pub fn client_takes_packets_lift()
    ensures takes { (w : World) (f : ℕ) → Keys w → May (ClientTakes f) w → Lifts w (after (ClientTakes f) w) }
{}

/// A CONNECT app comes, takes what its connection brings, or leaves; or bytes that it sent join. The tunnel of the new app is one whose request is on the way.
pub fn connections_lift()
    ensures comes { (w : World) (a f : ℕ) (address : List ℕ) → Keys w → May (ConnectComes a f address) w → Lifts w (after (ConnectComes a f address) w) }
    ensures starts { (w : World) (a f : ℕ) (address : List ℕ) → tunnel (after (ConnectComes a f address) w) a ≡ start true }
    ensures takes { (w : World) (f : ℕ) → Keys w → May (ConnectTakes f) w → Lifts w (after (ConnectTakes f) w) }
    ensures leaves { (w : World) (f : ℕ) (left : List Packet) → Keys w → May (ConnectLeaves f left) w → Lifts w (after (ConnectLeaves f left) w) }
    ensures joins { (w : World) (f : ℕ) → May (JoinsIn f) w → Lifts w (after (JoinsIn f) w) }
{}

/// A client's stream begins, or gets the number of its front, an app sends, and an end drops what the other sent before it lost the stream.
pub fn streams_lift()
    ensures begins { (w : World) (f c : ℕ) → Keys w → May (StreamBegins f c) w → Lifts w (after (StreamBegins f c) w) }
    ensures numbered { (w : World) (f g : ℕ) → Keys w → May (StreamIsNumbered f g) w → Lifts w (after (StreamIsNumbered f g) w) }
    ensures sends { (w : World) (a : ℕ) (bytes : List ℕ) → Lifts w (after (AppSends a bytes) w) }
    ensures drops_in { (w : World) (f : ℕ) → May (DropsIn f) w → Lifts w (after (DropsIn f) w) }
    ensures drops_out { (w : World) (f : ℕ) → May (DropsOut f) w → Lifts w (after (DropsOut f) w) }
{}

/// The number of a stream, and the bounds of a CONNECT connection's bytes, are nothing to any tunnel: each is what it was.
pub fn numbers_and_bounds_are_unseen()
    ensures numbered { (w : World) (f g : ℕ) → Keys w → May (StreamIsNumbered f g) w
        → (a : ℕ) → (w.apps a).came ≡ true → tunnel (after (StreamIsNumbered f g) w) a ≡ tunnel w a }
    ensures joins { (w : World) (f : ℕ) → May (JoinsIn f) w → (a : ℕ) → tunnel (after (JoinsIn f) w) a ≡ tunnel w a }
{}
