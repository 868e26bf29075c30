ghost use Rattle.kn_frames.specs.declared.frame.Frame.{Frame};
ghost use Rattle.kn_frames.specs.Frames.{IsWithinLimits};
ghost use Rattle.kn_h2_state.specs.declared.state.State.{State};
ghost use Rattle.kn_h2_state.specs.Feeding.{after_frame};
ghost use Rattle.kn_h2_state.specs.Holding.{Holds};

/// What holds of a connection goes on to hold through each frame, whether it has its effect or breaks a
/// rule: the windows and what is unread and owed are together what they began as, the reply frames that
/// wait and the header block under way stay within their bounds.
pub fn frames_keep()
    ensures { (s : State) (f : Frame) → Holds s → IsWithinLimits f → Holds (after_frame s f) }
{}
