ghost use Rattle.kn_call_heads.specs.OneFrame.{CallsAreOneFrame, AnswersAreOneFrame, RefusalsAreOneFrame, EndsAreOneFrame, CallsKeepFaces, AnswersKeepFaces, EndsKeepFaces};
ghost use Rattle.kn_call_heads.specs.OwnHeads.{CallsAreRequests, AnswersAreHeads, RefusalsAreHeads, EndsAreTrailers, CallsAreSmall, AnswersAreSmall, RefusalsAreSmall, EndsAreSmall};

/// The head of a call is no malformed request, whatever the authority and what the agent says of itself.
pub fn calls_are_requests()
    ensures { CallsAreRequests }
{}

/// The head of the answer to a call, and that of a refusal, is the head of a response: not malformed, and no
/// interim one.
pub fn answers_are_heads()
    ensures answers { AnswersAreHeads }
    ensures refusals { RefusalsAreHeads }
{}

/// What ends a call may stand as trailers.
pub fn ends_are_trailers()
    ensures { EndsAreTrailers }
{}

/// No head is larger than what a peer takes, where the texts that go into it have at most 16,000 bytes
/// together: a decoder in step with this end's encoder reads it as its list.
pub fn heads_are_small()
    ensures calls { CallsAreSmall }
    ensures answers { AnswersAreSmall }
    ensures refusals { RefusalsAreSmall }
    ensures ends { EndsAreSmall }
{}

/// Each of these heads stands in one frame, whatever its end wrote before, where these texts are as short as that.
pub fn heads_stand_in_one_frame()
    ensures calls { CallsAreOneFrame }
    ensures answers { AnswersAreOneFrame }
    ensures refusals { RefusalsAreOneFrame }
    ensures ends { EndsAreOneFrame }
{
    kn_h2_state::own_blocks_are_short();
}

/// Two ends of a connection that face each other go on to do so where the client begins a call, where the server
/// answers it, and where it ends it, each by a head of our own.
pub fn own_heads_keep_faces()
    ensures calls { CallsKeepFaces }
    ensures answers { AnswersKeepFaces }
    ensures ends { EndsKeepFaces }
{
    kn_h2_state::own_blocks_are_short();
    kn_facing::begin_keeps_faces();
    kn_facing::answer_keeps_faces();
    kn_facing::ends_keep_faces();
}
