ghost use Rattle.kn_h2_courses.specs.Failing.{FailsWhereFelled};
ghost use Rattle.kn_h2_courses.specs.Filling.{MovesFillLittle};
ghost use Rattle.kn_h2_courses.specs.Texts.{TextIsHeard};
ghost use Rattle.kn_h2_courses.specs.Queues.{QueuedIsSent};
ghost use Rattle.kn_h2_courses.specs.Windows.{DataIsSpent, WindowsAreSums};
ghost use Rattle.kn_h2_courses.specs.StreamWindows.{StreamWindowsAreSums};
ghost use Rattle.kn_h2_courses.specs.Tables.{TablesAreSmall};

/// While a connection has not failed, its sending window is 65,535, more by all increments that came, less by all
/// DATA that was sent; and its receiving window is 6,553,500, more by all that was granted, less by all DATA that came.
/// What a move takes of the sending window is the DATA, of all streams, in the frames that it writes.
pub fn connection_windows_are_sums()
    ensures sums { WindowsAreSums }
    ensures written { DataIsSpent }
{}

/// While a connection has not failed, the sending window of a stream that is open is the peer's initial size as it is
/// now, more by all increments that came for the stream, less by what was sent on it. Its receiving window is 65,535,
/// more by all that was granted of it, less by all DATA that came for it, with its padding.
pub fn stream_windows_are_sums()
    ensures { StreamWindowsAreSums }
{}

/// What was sent on a stream, followed by what waits, is the front of what was queued on it, and all of that until
/// this end's half is given up by a reset, from here or from there.
pub fn queued_is_sent()
    ensures { QueuedIsSent }
{}

/// While a connection has not failed, the text that was taken of a stream, followed by what is unread, is the front
/// of what came for it while the peer's half of it was open, without padding; and all of that unless the peer reset it.
pub fn text_is_heard()
    ensures { TextIsHeard }
{}

/// A connection has failed with a code exactly where one of the acts is the first to bring the end: a piece whose
/// frames break a rule, or that is no frames, or the reply that is one too many.
pub fn fails_where_felled()
    ensures { FailsWhereFelled }
{}

/// What a connection keeps of the header fields of its peer counts at most 4,096 bytes, whatever is done with it.
pub fn tables_are_small()
    ensures { TablesAreSmall }
{}

/// After a move at most 32,776 bytes wait for the socket, unless it ends a stream with trailers.
pub fn moves_fill_little()
    ensures { MovesFillLittle }
{}
