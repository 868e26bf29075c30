//! Turns, as what they show in the packet world.

ghost use Rattle.kn_turns.specs.Laws.{RunsLead, StartsLead, TurnsLead};
ghost use Rattle.kn_turns.specs.Promises.{TurnsKeepPromises};

/// Each turn that may be made leads by moves from what is shown to what is shown, and the lists of the world name each other as before.
pub fn turns_lead()
    ensures { TurnsLead }
{}

/// So does every list of turns, each of which may be made when it comes; and what a world shows that turns lead to from the start is what moves lead to
/// from the start of the packet world.
pub fn runs_lead()
    ensures runs { RunsLead }
    ensures starts { StartsLead }
{}

/// After every list of turns from the start, the promises of many tunnels hold in the words of a report. Bytes stay apart, no two dials are of one app,
/// and an app that is that of no dial got nothing. Connections are accounted for, and each tunnel is in its tables. Once all is quiet and closed nothing
/// is left.
pub fn turns_keep_promises()
    ensures { TurnsKeepPromises }
{}
