ghost use Rattle.std.specs.Prelude.{◌≡◌, ◌+◌, ◌<◌, ◌≤◌, List, ℕ, [], ◌∷◌, ◌++◌, length, take, true, Some, None, Ok};
ghost use Rattle.kn_grpc.specs.declared.fault.MessageFault.{MessageFault};
ghost use Rattle.kn_grpc.specs.declared.fault.MessageReason.{MessageReason};
ghost use Rattle.kn_packet.specs.declared.packet.Packet.{Packet};
ghost use Rattle.kn_packet.specs.declared.fault.PacketFault.{PacketFault};
ghost use Rattle.kn_packet.specs.Reading.{Reads};
ghost use Rattle.kn_packet.specs.Faults.{HasFault};
ghost use Rattle.kn_packet.specs.Spelling.{spelling, HasSpelling, IsPacket};
ghost use Rattle.kn_grpc.specs.Messages.{IsSpelling, IsPartial, AreMessages, BeginsNoMessage, spelled};
ghost use Rattle.kn_grpc.specs.Readers.{Less, Whole, Bad, Reading, first_message, is_less, taken, fed, fault_in};
ghost use Rattle.kn_grpc.specs.Courses.{Act, HasReason, after_acts, HasCourse};
ghost use Rattle.kn_grpc.specs.declared.call.Service.{Service};
ghost use Rattle.kn_grpc.specs.Paths.{segments_of, EndsIn};
ghost use Rattle.kn_grpc.specs.declared.call.Service.TheVariants.{Agent, Proxy};
ghost use Rattle.kn_grpc.specs.Calls.{service_of, is_id, call_of, call_in};
ghost use Rattle.kn_grpc.specs.OwnHeads.{call_fields};
ghost use Rattle.kn_route.specs.declared.id_kind.IdKind.{IdKind};
ghost use Rattle.kn_route.specs.Identifiers.{identifiers_in};
ghost use Rattle.std.specs.Str.{is_utf8};
ghost use Rattle.kn_grpc.specs.Packets.{framed, packet_in, status_of, first_of};

/// However the bytes are cut into pieces, what is taken and what is held are those of the whole.
pub fn any_pieces()
    ensures state { (r : Reading) (xs ys : List ℕ) → fed r (xs ++ ys) ≡ fed (fed r xs) ys }
    ensures count { (kept xs ys : List ℕ) → taken kept (xs ++ ys) ≡ taken kept xs + taken (kept ++ take (taken kept xs) xs) ys }
{}

/// The first message of a text is the one that is spelled at its front. A text that is no message's front
/// has a fault, by its first byte or by its length.
pub fn first_as_spelled()
    // A whole message stands at the front, and nothing else does.
    ensures whole { (text message rest : List ℕ) → first_message text ≡ Whole message rest →
        (front : List ℕ) × (text ≡ front ++ rest) × IsSpelling message front }
    ensures only_whole { (message front rest : List ℕ) → IsSpelling message front → first_message (front ++ rest) ≡ Whole message rest }

    // The text is the front of a message, and not all of it.
    ensures less { (text : List ℕ) → first_message text ≡ Less → IsPartial text }
    ensures only_less { (text : List ℕ) → IsPartial text → first_message text ≡ Less }

    // No message begins so, whatever follows, and the reason is this one.
    ensures bad { (text : List ℕ) (reason : MessageReason) → first_message text ≡ Bad reason → HasReason text reason × BeginsNoMessage text }
    ensures only_bad { (text : List ℕ) (reason : MessageReason) → HasReason text reason → first_message text ≡ Bad reason }
{}

/// What follows a message, or a fault, does not change it.
pub fn first_stays()
    ensures whole { (text message rest more : List ℕ) → first_message text ≡ Whole message rest → first_message (text ++ more) ≡ Whole message (rest ++ more) }
    ensures bad { (text more : List ℕ) (reason : MessageReason) → first_message text ≡ Bad reason → first_message (text ++ more) ≡ Bad reason }
{}

/// Of all bytes that were taken so far, over all feeds and pops: the messages that were popped and what is
/// held are these bytes, and what is held is at most one message or ends at the first byte that shows a
/// fault. No other messages are these bytes.
pub fn taken_as_spelled()
    ensures course { (acts : List Act) → HasCourse (after_acts acts) }
    ensures one { (bytes rest other : List ℕ) (ms ns : List (List ℕ)) → AreMessages bytes ms rest → AreMessages bytes ns other → (ms ≡ ns) × (rest ≡ other) }
{}

/// How much of a piece is taken: up to the end of the message under way, or all where it does not end.
pub fn taken_up_to_the_end()
    ensures less { (kept piece : List ℕ) → first_message (kept ++ piece) ≡ Less → taken kept piece ≡ length piece }
    ensures whole { (kept piece message rest : List ℕ) → first_message kept ≡ Less → first_message (kept ++ piece) ≡ Whole message rest →
        (taken kept piece + length rest ≡ length piece) × (first_message (kept ++ take (taken kept piece) piece) ≡ Whole message []) }
    ensures bad { (kept piece : List ℕ) (reason : MessageReason) → first_message kept ≡ Less → first_message (kept ++ piece) ≡ Bad reason →
        first_message (kept ++ take (taken kept piece) piece) ≡ Bad reason }

    // Where a whole message is held, or after a fault, nothing is taken.
    ensures none_whole { (r : Reading) (piece message rest : List ℕ) → first_message r.kept ≡ Whole message rest → (taken r.kept piece ≡ 0) × (fed r piece ≡ r) }
    ensures none_bad { (r : Reading) (piece : List ℕ) (fault : MessageFault) → fault_in r ≡ Some fault → (taken r.kept piece ≡ 0) × (fed r piece ≡ r) }
{}

/// A message that was written is read again, wherever it stands.
pub fn read_as_written()
    ensures spelling { (message : List ℕ) → length message ≤ 4194304 → IsSpelling message (spelled message) }
    ensures first { (message rest : List ℕ) → length message ≤ 4194304 → first_message (spelled message ++ rest) ≡ Whole message rest }
{}

/// The function that reads a packet gives what the grammar gives: the packet that the bytes read as, or
/// none where they have a fault.
pub fn packet_as_spelled()
    ensures packet { (bytes : List ℕ) (packet : Packet) → packet_in bytes ≡ Some packet → Reads bytes packet }
    ensures only_packet { (bytes : List ℕ) (packet : Packet) → Reads bytes packet → packet_in bytes ≡ Some packet }
    ensures only_fault { (bytes : List ℕ) (fault : PacketFault) → HasFault bytes fault → packet_in bytes ≡ None }
{}

/// The first packet of a text is that of its first message. A message that is no packet is bad, with the
/// status 13; what follows changes nothing; and a packet that was framed is the first, whatever follows.
pub fn first_packet_of()
    ensures framed { (packet : Packet) (rest : List ℕ) → IsPacket packet → HasSpelling packet → length (spelling packet) ≤ 4194304 →
        first_of (framed packet ++ rest) ≡ Whole packet rest }
    ensures some { (packet : Packet) → 0 < length (framed packet) }
    ensures whole { (text rest more : List ℕ) (packet : Packet) → first_of text ≡ Whole packet rest → first_of (text ++ more) ≡ Whole packet (rest ++ more) }
    ensures bad { (text more : List ℕ) (status : ℕ) → first_of text ≡ Bad status → first_of (text ++ more) ≡ Bad status }

    // It is less exactly where the first message is, and else what the message says.
    ensures less { (text : List ℕ) → is_less (first_of text) ≡ is_less (first_message text) }
    ensures packet { (text message rest : List ℕ) (packet : Packet) → first_message text ≡ Whole message rest → Reads message packet → first_of text ≡ Whole packet rest }
    ensures no_packet { (text message rest : List ℕ) (fault : PacketFault) → first_message text ≡ Whole message rest → HasFault message fault → first_of text ≡ Bad 13 }
    ensures no_message { (text : List ℕ) (reason : MessageReason) → first_message text ≡ Bad reason → first_of text ≡ Bad (status_of reason) }
{}

/// A path names a service exactly where it begins with a slash and its last two segments are the service's
/// name, alone or behind a package and a dot, and its method.
pub fn paths_by_segments()
    ensures named { (path : List ℕ) (service : Service) → service_of path ≡ Some service → EndsIn path (segments_of service) }
    ensures only_named { (path : List ℕ) (service : Service) → EndsIn path (segments_of service) → service_of path ≡ Some service }
{}

/// The heads of this crate's own calls are read as these calls.
pub fn own_calls_are_read()
    ensures agent { (authority id text : List ℕ) (pairs : List (IdKind × List ℕ)) → is_utf8 text ≡ true → identifiers_in text ≡ Ok pairs → is_id id ≡ true →
        call_in (call_fields Agent authority id text) ≡ Ok (call_of Agent id pairs) }
    ensures proxy { (authority id text : List ℕ) → call_in (call_fields Proxy authority id text) ≡ Ok (call_of Proxy [] []) }
{}
