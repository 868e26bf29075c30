//! Where dials go.

ghost use Rattle.std.specs.Prelude.{[], ◌∷◌, ◌≡◌, ℕ, ℤ, List, None, Some, codes, true};
ghost use Rattle.kn_packet.specs.declared.packet.Packet.{Packet};
ghost use Rattle.kn_packet.specs.declared.packet.Packet.TheVariants.{DialRsp};
ghost use Rattle.kn_server_core.specs.FrontLists.{is_up};
ghost use Rattle.kn_server_core.specs.Packets.{refusal};
ghost use Rattle.kn_server_core.specs.declared.choice.Choice.{Choice};
ghost use Rattle.kn_server_core.specs.declared.event.ServerOut.TheVariants.{ToFront, ToLink};
ghost use Rattle.kn_server_core.specs.declared.state.State.{State};
ghost use Rattle.kn_packets.specs.Outcome.{IsIn};
ghost use Rattle.kn_world.specs.Choices.{FindsNone, IsPicked, ReachesChoice};
ghost use Rattle.kn_refinement.specs.Requests.{Decides, choice_for, given_for};

/// Whatever state the server is in, what it gives out to a link for a request of a dial goes to the link that its strategies pick among the links
/// that are up at that moment. It refuses the request as no agent is available exactly where it comes to the choice and none is picked.
pub fn requests_go_where_picked()
    ensures sent { (s : State) (front link : ℕ) (protocol address : List ℕ) (random : ℤ) (packet : Packet) → IsIn (ToLink link packet) (given_for s front protocol address random) → IsPicked s address link }
    ensures refused { (s : State) (front : ℕ) (protocol address : List ℕ) (random : ℤ) → is_up front s.fronts ≡ true → ReachesChoice s front protocol random → FindsNone s address
        → given_for s front protocol address random ≡ refusal front random (codes "no agent available") ∷ [] }
    ensures only { (s : State) (front other : ℕ) (protocol address : List ℕ) (random connect_id asked : ℤ) → IsIn (ToFront other (DialRsp (codes "no agent available") connect_id asked)) (given_for s front protocol address random)
        → ReachesChoice s front protocol random × FindsNone s address }
{}

/// Whatever state the server is in, the choice that a request comes to decides what is given out for it: with an answer its dial is made for this link
/// and asked for there, without one it is refused as no agent is available; and no other request is refused so.
pub fn choices_decide()
    ensures decided { (s : State) (front : ℕ) (protocol address : List ℕ) (random : ℤ) (c : Choice) → choice_for s front protocol address random ≡ Some c
        → Decides (given_for s front protocol address random) front protocol address random c.dial c.answer }
    ensures only { (s : State) (front other : ℕ) (protocol address : List ℕ) (random connect_id asked : ℤ) → IsIn (ToFront other (DialRsp (codes "no agent available") connect_id asked)) (given_for s front protocol address random)
        → (c : Choice) × (choice_for s front protocol address random ≡ Some c) × (c.answer ≡ None) }
{}
