ghost use Rattle.kn_front_room.specs.Rooms.{RoomIsKept, RoomAtFirst, MessagesAreShort};

/// Where a front's requests, and data for it, come only while at most 65,536 bytes wait for it, no more than
/// 4,644,864 bytes ever do: each further packet was asked for by a dial, whose number of packets and length are bounded.
pub fn front_room_is_kept()
    ensures first { RoomAtFirst }
    ensures kept { RoomIsKept }
{}

/// A packet that is read from the first message of a stream carries at most 4,194,304 bytes of data.
pub fn messages_are_short()
    ensures { MessagesAreShort }
{}
