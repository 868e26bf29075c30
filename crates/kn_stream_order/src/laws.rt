ghost use Rattle.kn_stream_order.specs.Order.{PiecesTellInOrder, PiecesLengthenNoQueue, OwnStepsLengthenNoQueue};

/// Whatever bytes come, streams are told as opened by rising numbers, above all that were opened before; and no
/// stream has more bytes queued than before.
pub fn pieces_keep_order()
    ensures order { PiecesTellInOrder }
    ensures queues { PiecesLengthenNoQueue }
{}

/// No step of this end makes a queue longer, but for bytes that are queued on this very stream.
pub fn own_steps_keep_queues()
    ensures { OwnStepsLengthenNoQueue }
{}
