ghost use Rattle.std.specs.Prelude.{◌≡◌, ℕ, ◌+◌, ◌-◌, ◌^◌, ◌<◌, ◌≤◌, Bool, List, [], ◌∷◌, ◌++◌, length, Some, None};
ghost use Rattle.kn_frames.specs.declared.frame.Frame.{Frame};
ghost use Rattle.kn_frames.specs.declared.fault.FrameFault.{FrameFault};
ghost use Rattle.kn_frames.specs.declared.listing.ListingReason.TheVariants.{TooLong, Cut};
ghost use Rattle.kn_frames.specs.Frames.{IsStream, AreFrames, IsSpelling, spelled};
ghost use Rattle.kn_frames.specs.Readers.{Reading, start, after_bytes, frames_in, fault_in, in_frames, count_up, IsFaultOf, IsTooLongAfter};
ghost use Rattle.kn_frames.specs.Listings.{begins_with_preface, stream_lines, listing};

/// However the bytes are cut into pieces, the frames and what is held are those of the whole.
pub fn any_pieces()
    ensures state { (r : Reading) (xs ys : List ℕ) → after_bytes r (xs ++ ys) ≡ after_bytes (after_bytes r xs) ys }
    ensures frames { (r : Reading) (xs ys : List ℕ) → frames_in r (xs ++ ys) ≡ frames_in r xs ++ frames_in (after_bytes r xs) ys }
{}

/// Of all bytes so far: the frames that were cut are those whose spellings, joined and followed by
/// what is held, are these bytes. A fault comes at the first byte after which nothing could follow
/// to make it so.
pub fn cut_as_spelled()
    // What is cut is the stream.
    ensures cut { (preface : Bool) (bytes : List ℕ) → fault_in (after_bytes (start preface) bytes).phase ≡ None →
        IsStream preface bytes (frames_in (start preface) bytes) (after_bytes (start preface) bytes).rest }

    // No other frames are, and no other rest.
    ensures only { (preface : Bool) (bytes rest : List ℕ) (frames : List Frame) → IsStream preface bytes frames rest →
        (fault_in (after_bytes (start preface) bytes).phase ≡ None) × (frames_in (start preface) bytes ≡ frames)
        × ((after_bytes (start preface) bytes).rest ≡ rest)
        × ((after_bytes (start preface) bytes).offset ≡ count_up 0 (length bytes - length rest)) }

    // A fault names the place, and the frames before it are cut; no other place does.
    ensures fault { (preface : Bool) (bytes : List ℕ) (fault : FrameFault) → fault_in (after_bytes (start preface) bytes).phase ≡ Some fault →
        IsFaultOf preface bytes (frames_in (start preface) bytes) fault }
    ensures only_fault { (preface : Bool) (bytes : List ℕ) (frames : List Frame) (fault : FrameFault) → IsFaultOf preface bytes frames fault →
        (fault_in (after_bytes (start preface) bytes).phase ≡ Some fault) × (frames_in (start preface) bytes ≡ frames) }

    // After it nothing could follow.
    ensures refused { (preface : Bool) (bytes more rest : List ℕ) (frames : List Frame) (fault : FrameFault) →
        fault_in (after_bytes (start preface) bytes).phase ≡ Some fault → IsStream preface (bytes ++ more) frames rest → ⊥ }
{}

/// A frame that was written is read again, wherever it stands.
pub fn read_as_written()
    ensures spelling { (kind flags stream : ℕ) (payload : List ℕ) → stream < 2 ^ 31 → length payload ≤ 16384 →
        IsSpelling (record { kind = kind; flags = flags; stream = stream; payload = payload }) (spelled kind flags stream payload) }
    ensures frames { (kind flags stream offset : ℕ) (payload : List ℕ) → stream < 2 ^ 31 → length payload ≤ 16384 →
        frames_in (in_frames [] offset) (spelled kind flags stream payload) ≡ (record { kind = kind; flags = flags; stream = stream; payload = payload }) ∷ [] }
    ensures state { (kind flags stream offset : ℕ) (payload : List ℕ) → stream < 2 ^ 31 → length payload ≤ 16384 →
        after_bytes (in_frames [] offset) (spelled kind flags stream payload) ≡ in_frames [] (count_up offset (9 + length payload)) }
{}

/// The listing of bytes has the lines of the frames that they are, or names the place where they stop
/// to be frames: exactly so, in both directions.
pub fn listed_as_spelled()
    ensures lines { (bytes text : List ℕ) → listing bytes ≡ Ok text → (frames : List Frame) × AreFrames (begins_with_preface bytes) bytes frames
        × (text ≡ stream_lines (begins_with_preface bytes) frames) }
    ensures only_lines { (bytes : List ℕ) (frames : List Frame) → AreFrames (begins_with_preface bytes) bytes frames →
        listing bytes ≡ Ok (stream_lines (begins_with_preface bytes) frames) }

    // The bytes end inside a frame.
    ensures cut { (bytes : List ℕ) (offset : ℕ) → listing bytes ≡ Err (record { offset = offset; reason = Cut }) →
        (frames : List Frame) × (rest : List ℕ) × IsStream (begins_with_preface bytes) bytes frames rest × (0 < length rest)
        × (offset ≡ count_up 0 (length bytes - length rest)) }
    ensures only_cut { (bytes : List ℕ) (frames : List Frame) (rest : List ℕ) → IsStream (begins_with_preface bytes) bytes frames rest → 0 < length rest →
        listing bytes ≡ Err (record { offset = count_up 0 (length bytes - length rest); reason = Cut }) }

    // After whole frames nothing goes on as a frame.
    ensures too_long { (bytes : List ℕ) (offset : ℕ) → listing bytes ≡ Err (record { offset = offset; reason = TooLong }) →
        (frames : List Frame) × (fault : FrameFault) × IsTooLongAfter (begins_with_preface bytes) bytes frames fault × (fault.offset ≡ offset) }
    ensures only_too_long { (bytes : List ℕ) (frames : List Frame) (fault : FrameFault) → IsTooLongAfter (begins_with_preface bytes) bytes frames fault →
        listing bytes ≡ Err (record { offset = fault.offset; reason = TooLong }) }
{}
