//! The laws of words. Each speaks of every list, and of every key, since it holds whatever each packet is to the tunnel.

ghost use Rattle.std.specs.Prelude.{[], ◌≡◌, ◌++◌, ◌||◌, ◌∷◌, Bool, List, None, Option, Some, drop, false, filter, if◌then◌else◌, map, pos, take, true, ℕ, ℤ};
ghost use Rattle.std.specs.List.{AllByRecursion};
ghost use Rattle.kn_packet.specs.declared.packet.Packet.{Packet};
ghost use Rattle.kn_packet.specs.declared.packet.Packet.TheVariants.{CloseReq, Data, DialReq, DialRsp};
ghost use Rattle.kn_tunnel.specs.Cuts.{IsCutDown, IsCutIn, IsCutOut, IsCutUp};
ghost use Rattle.kn_tunnel.specs.Kinds.{has};
ghost use Rattle.kn_tunnel.specs.Steps.{appended, no_down, no_in, no_out, no_up, one_more_close};
ghost use Rattle.kn_tunnel.specs.Tunnel.{Downward, Inward, NoHead, Outward, Refusal, Reply, Upward};
ghost use Rattle.kn_words.specs.Below.{ConnectsBelow, RandomsBelow};
ghost use Rattle.kn_words.specs.Down.{BytesDown, CloseDown, DownItem, OtherDown, down_before, down_cons, down_follows, down_item, down_join, down_of, down_ordered, down_snoc, down_word, has_request, is_request};
ghost use Rattle.kn_words.specs.Given.{all_given};
ghost use Rattle.kn_words.specs.In.{BytesIn, CancelIn, CloseIn, InItem, RequestIn, in_before, in_cons, in_follows, in_join, in_of, in_ordered, in_snoc, in_word, stream_in_item};
ghost use Rattle.kn_words.specs.Numbers.{is_drawn_number};
ghost use Rattle.kn_words.specs.Out.{BytesOut, CloseOut, OtherOut, OutItem, RefusalOut, ReplyOut, out_before, out_cons, out_follows, out_join, out_of, out_ordered, out_snoc, out_word, stream_out_item};
ghost use Rattle.kn_words.specs.Parts.{all_bytes};
ghost use Rattle.kn_words.specs.Standing.{Stands};
ghost use Rattle.kn_words.specs.Up.{BytesUp, CloseUp, RefusalUp, ReplyUp, UpItem, up_before, up_cons, up_follows, up_item, up_join, up_of, up_ordered, up_snoc, up_word};

/// A word with one packet more at the end of its list.
pub fn words_of_lists()
    ensures up { (item : Packet → UpItem) (ps : List Packet) (p : Packet) → up_of item (ps ++ p ∷ []) ≡ up_snoc (up_of item ps) (item p) }
    ensures down { (item : Packet → DownItem) (ps : List Packet) (p : Packet) → down_of item (ps ++ p ∷ []) ≡ down_snoc (down_of item ps) (item p) }
    ensures inward { (item : Packet → InItem) (ps : List Packet) (p : Packet) → in_of item (ps ++ p ∷ []) ≡ in_snoc (in_of item ps) (item p) }
    ensures outward { (item : Packet → OutItem) (ps : List Packet) (p : Packet) → out_of item (ps ++ p ∷ []) ≡ out_snoc (out_of item ps) (item p) }
{}

/// A list in order stays so where a packet is appended that may follow its word.
pub fn order_is_kept()
    ensures up { (item : Packet → UpItem) (ps : List Packet) (p : Packet) → up_ordered item ps ≡ true → up_follows (up_of item ps) (item p) ≡ true
        → up_ordered item (ps ++ p ∷ []) ≡ true }
    ensures down { (item : Packet → DownItem) (ps : List Packet) (p : Packet) → down_ordered item ps ≡ true → down_follows (down_of item ps) (item p) ≡ true
        → down_ordered item (ps ++ p ∷ []) ≡ true }
    ensures inward { (item : Packet → InItem) (ps : List Packet) (p : Packet) → in_ordered item ps ≡ true → in_follows (in_of item ps) (item p) ≡ true
        → in_ordered item (ps ++ p ∷ []) ≡ true }
    ensures outward { (item : Packet → OutItem) (ps : List Packet) (p : Packet) → out_ordered item ps ≡ true → out_follows (out_of item ps) (item p) ≡ true
        → out_ordered item (ps ++ p ∷ []) ≡ true }
{}

/// What a loss leaves of a list in order is in order, and its word is what a loss leaves of the word.
pub fn fronts_of_lists()
    ensures up { (item : Packet → UpItem) (ps qs : List Packet) → up_ordered item (ps ++ qs) ≡ true
        → (up_ordered item ps ≡ true) × IsCutUp (up_of item ps) (up_of item (ps ++ qs)) }
    ensures down { (item : Packet → DownItem) (ps qs : List Packet) → down_ordered item (ps ++ qs) ≡ true
        → (down_ordered item ps ≡ true) × IsCutDown (down_of item ps) (down_of item (ps ++ qs)) }
    ensures inward { (item : Packet → InItem) (ps qs : List Packet) → in_ordered item (ps ++ qs) ≡ true
        → (in_ordered item ps ≡ true) × IsCutIn (in_of item ps) (in_of item (ps ++ qs)) }
    ensures outward { (item : Packet → OutItem) (ps qs : List Packet) → out_ordered item (ps ++ qs) ≡ true
        → (out_ordered item ps ≡ true) × IsCutOut (out_of item ps) (out_of item (ps ++ qs)) }
{}

/// The word of two lists, one after the other.
pub fn words_are_joined()
    ensures up { (item : Packet → UpItem) (ps qs : List Packet) → up_of item (ps ++ qs) ≡ up_join (up_of item ps) (up_of item qs) }
    ensures down { (item : Packet → DownItem) (ps qs : List Packet) → down_of item (ps ++ qs) ≡ down_join (down_of item ps) (down_of item qs) }
    ensures inward { (item : Packet → InItem) (ps qs : List Packet) → in_of item (ps ++ qs) ≡ in_join (in_of item ps) (in_of item qs) }
    ensures outward { (item : Packet → OutItem) (ps qs : List Packet) → out_of item (ps ++ qs) ≡ out_join (out_of item ps) (out_of item qs) }
{}

/// Where many tunnels are told at once, the word of each gets what was given for it, once, and nothing else. `own` tells its entries
/// from those of others.
pub fn each_gets_its_own<E>()
    ensures to_stream { (item : Packet → OutItem) (give : E → List Packet) (own : E → Bool)
        → ((e : E) → own e ≡ false → AllByRecursion (λ p. item p ≡ OtherOut) (give e))
        → (ps : List Packet) (es : List E) (h : E) → filter own es ≡ h ∷ []
        → out_of item (ps ++ all_given give es) ≡ out_of item (ps ++ give h) }
    ensures nothing_to_stream { (item : Packet → OutItem) (give : E → List Packet) (own : E → Bool)
        → ((e : E) → own e ≡ false → AllByRecursion (λ p. item p ≡ OtherOut) (give e))
        → (ps : List Packet) (es : List E) → filter own es ≡ []
        → out_of item (ps ++ all_given give es) ≡ out_of item ps }
    ensures to_agent { (item : Packet → DownItem) (give : E → List Packet) (own : E → Bool)
        → ((e : E) → own e ≡ false → AllByRecursion (λ p. item p ≡ OtherDown) (give e))
        → (ps : List Packet) (es : List E) (h : E) → filter own es ≡ h ∷ []
        → down_of item (ps ++ all_given give es) ≡ down_of item (ps ++ give h) }
    ensures nothing_to_agent { (item : Packet → DownItem) (give : E → List Packet) (own : E → Bool)
        → ((e : E) → own e ≡ false → AllByRecursion (λ p. item p ≡ OtherDown) (give e))
        → (ps : List Packet) (es : List E) → filter own es ≡ []
        → down_of item (ps ++ all_given give es) ≡ down_of item ps }
{}

/// A number that is not drawn yet. With it as key a list has the word that it has without one.
pub fn new_numbers_are_nowhere()
    ensures dial_to_server { (app dial : ℕ) (ps : List Packet) → ConnectsBelow dial ps → in_word app (Some dial) ps ≡ in_word app None ps }
    ensures dial_to_client { (app dial : ℕ) (ps : List Packet) → ConnectsBelow dial ps → out_word app (Some dial) ps ≡ out_word app None ps }
    ensures app_to_server { (app : ℕ) (ps : List Packet) → RandomsBelow app ps → in_word app None ps ≡ no_in }
    ensures app_to_client { (app : ℕ) (ps : List Packet) → RandomsBelow app ps → out_word app None ps ≡ no_out }
    ensures dial_from_agent { (dial : ℕ) (ps : List Packet) → RandomsBelow dial ps → up_word dial None ps ≡ no_up }
    ensures dial_to_agent { (dial : ℕ) (ps : List Packet) → RandomsBelow dial ps → has_request dial ps ≡ false }
    ensures connection_from_agent { (dial connection : ℕ) (ps : List Packet) → ConnectsBelow connection ps
        → up_word dial (Some connection) ps ≡ up_word dial None ps }
    ensures connection_to_agent { (connection : ℕ) (ps : List Packet) → ConnectsBelow connection ps → down_word (Some connection) ps ≡ no_down }
{}

/// What an agent sends to a server that lost the link is dropped; else it stands at the end of the word.
pub fn from_agent()
    ensures refusal { (item : Packet → UpItem) (ps : List Packet) (p : Packet) (there : Bool) → item p ≡ RefusalUp
        → up_of item (if there then ps ++ p ∷ [] else ps) ≡ record (up_of item ps) { refusal = (up_of item ps).refusal || there } }
    ensures reply { (item : Packet → UpItem) (ps : List Packet) (p : Packet) (there : Bool) → item p ≡ ReplyUp
        → up_of item (if there then ps ++ p ∷ [] else ps) ≡ record (up_of item ps) { reply = (up_of item ps).reply || there } }
    ensures bytes { (item : Packet → UpItem) (ps : List Packet) (p : Packet) (there : Bool) (bytes : List ℕ) → item p ≡ BytesUp bytes
        → up_of item (if there then ps ++ p ∷ [] else ps) ≡ record (up_of item ps) { bytes = appended there (up_of item ps).bytes bytes } }
    ensures close { (item : Packet → UpItem) (ps : List Packet) (p : Packet) (there : Bool) → item p ≡ CloseUp
        → up_of item (if there then ps ++ p ∷ [] else ps) ≡ record (up_of item ps) { closes = one_more_close there (up_of item ps).closes } }
{}

/// The same of what the server sends to an agent.
pub fn to_agent()
    ensures bytes { (item : Packet → DownItem) (ps : List Packet) (p : Packet) (there : Bool) (bytes : List ℕ) → item p ≡ BytesDown bytes
        → down_of item (if there then ps ++ p ∷ [] else ps) ≡ record (down_of item ps) { bytes = appended there (down_of item ps).bytes bytes } }
    ensures close { (item : Packet → DownItem) (ps : List Packet) (p : Packet) (there : Bool) → item p ≡ CloseDown
        → down_of item (if there then ps ++ p ∷ [] else ps) ≡ record (down_of item ps) { close = (down_of item ps).close || there } }
{}

/// The same of what an app's stream sends to the server.
pub fn from_stream()
    ensures request { (item : Packet → InItem) (ps : List Packet) (p : Packet) (there : Bool) → item p ≡ RequestIn
        → in_of item (if there then ps ++ p ∷ [] else ps) ≡ record (in_of item ps) { request = (in_of item ps).request || there } }
    ensures cancel { (item : Packet → InItem) (ps : List Packet) (p : Packet) (there : Bool) → item p ≡ CancelIn
        → in_of item (if there then ps ++ p ∷ [] else ps) ≡ record (in_of item ps) { cancel = (in_of item ps).cancel || there } }
    ensures bytes { (item : Packet → InItem) (ps : List Packet) (p : Packet) (there : Bool) (bytes : List ℕ) → item p ≡ BytesIn bytes
        → in_of item (if there then ps ++ p ∷ [] else ps) ≡ record (in_of item ps) { bytes = appended there (in_of item ps).bytes bytes } }
    ensures close { (item : Packet → InItem) (ps : List Packet) (p : Packet) (there : Bool) → item p ≡ CloseIn
        → in_of item (if there then ps ++ p ∷ [] else ps) ≡ record (in_of item ps) { close = (in_of item ps).close || there } }
{}

/// The same of what the server sends to an app's stream.
pub fn to_stream()
    ensures refusal { (item : Packet → OutItem) (ps : List Packet) (p : Packet) (there : Bool) → item p ≡ RefusalOut
        → out_of item (if there then ps ++ p ∷ [] else ps) ≡ record (out_of item ps) { head = if there then Refusal else (out_of item ps).head } }
    ensures reply { (item : Packet → OutItem) (ps : List Packet) (p : Packet) (there : Bool) → item p ≡ ReplyOut
        → out_of item (if there then ps ++ p ∷ [] else ps) ≡ record (out_of item ps) { head = if there then Reply else (out_of item ps).head } }
    ensures bytes { (item : Packet → OutItem) (ps : List Packet) (p : Packet) (there : Bool) (bytes : List ℕ) → item p ≡ BytesOut bytes
        → out_of item (if there then ps ++ p ∷ [] else ps) ≡ record (out_of item ps) { bytes = appended there (out_of item ps).bytes bytes } }
    ensures close { (item : Packet → OutItem) (ps : List Packet) (p : Packet) (there : Bool) → item p ≡ CloseOut
        → out_of item (if there then ps ++ p ∷ [] else ps) ≡ record (out_of item ps) { closes = one_more_close there (out_of item ps).closes } }
{}

/// Bytes that are too many for one packet go in several, and are one run of bytes in the word.
pub fn parts_are_joined()
    ensures two { (count : ℕ) (bytes : List ℕ) → all_bytes (take count bytes ∷ drop count bytes ∷ []) ≡ bytes }
    ensures to_stream { (item : Packet → OutItem) (give : List ℕ → Packet) → ((bytes : List ℕ) → item (give bytes) ≡ BytesOut bytes)
        → (ps : List Packet) (parts : List (List ℕ))
        → out_of item (ps ++ map give parts) ≡ record (out_of item ps) { bytes = (out_of item ps).bytes ++ all_bytes parts } }
    ensures to_agent { (item : Packet → DownItem) (give : List ℕ → Packet) → ((bytes : List ℕ) → item (give bytes) ≡ BytesDown bytes)
        → (ps : List Packet) (parts : List (List ℕ))
        → down_of item (ps ++ map give parts) ≡ record (down_of item ps) { bytes = (down_of item ps).bytes ++ all_bytes parts } }
{}

/// What a word tells stands in its list.
pub fn words_tell_packets()
    ensures reply { (dial : ℕ) (connection : Option ℕ) (ps : List Packet) → (up_word dial connection ps).reply ≡ true
        → Stands (up_item dial connection) ReplyUp ps }
    ensures close { (connection : Option ℕ) (ps : List Packet) → (down_word connection ps).close ≡ true → Stands (down_item connection) CloseDown ps }
    ensures request { (dial : ℕ) (ps : List Packet) → has_request dial ps ≡ true → Stands (is_request dial) true ps }
    ensures reply_is { (dial : ℕ) (connection : Option ℕ) (p : Packet) → up_item dial connection p ≡ ReplyUp
        → (c : ℤ) × (r : ℤ) × (p ≡ DialRsp [] c r) × (is_drawn_number connection c ≡ true) }
    ensures close_is { (connection : Option ℕ) (p : Packet) → down_item connection p ≡ CloseDown
        → (c : ℤ) × (p ≡ CloseReq c) × (is_drawn_number connection c ≡ true) }
{}

/// A request stands in two lists, one after the other, where it stands in one of them.
pub fn requests_are_joined()
    ensures joined { (dial : ℕ) (ps qs : List Packet) → has_request dial (ps ++ qs) ≡ (has_request dial ps || has_request dial qs) }
    ensures own { (dial : ℕ) (protocol address : List ℕ) (ps : List Packet)
        → has_request dial (ps ++ DialReq protocol address (pos dial) ∷ []) ≡ true }
{}

/// The first packet of a list in order is taken. What the tunnel's event leaves of the word is the word of the rest.
pub fn first_is_taken()
    ensures reply { (w : Upward) → up_before ReplyUp w ≡ true → record (up_cons ReplyUp w) { reply = false } ≡ w }
    ensures refusal { (w : Upward) → up_before RefusalUp w ≡ true → record (up_cons RefusalUp w) { refusal = false } ≡ w }
    ensures close { (w : Downward) → down_before CloseDown w ≡ true → record (down_cons CloseDown w) { close = false } ≡ w }
    ensures request { (w : Inward) → in_before RequestIn w ≡ true → record (in_cons RequestIn w) { request = false } ≡ w }
    ensures cancel { (w : Inward) → in_before CancelIn w ≡ true → record (in_cons CancelIn w) { cancel = false } ≡ w }
    ensures close_of_app { (w : Inward) → in_before CloseIn w ≡ true → record (in_cons CloseIn w) { close = false } ≡ w }
    ensures refusal_to_app { (w : Outward) → out_before RefusalOut w ≡ true → record (out_cons RefusalOut w) { head = NoHead } ≡ w }
    ensures reply_to_app { (w : Outward) → out_before ReplyOut w ≡ true → record (out_cons ReplyOut w) { head = NoHead } ≡ w }
{}

/// What an end draws a number for is told by that number: each packet with it is its tunnel's.
pub fn own_packets_are_found()
    ensures reply { (dial connection : ℕ) (r : ℤ) → up_item dial (Some connection) (DialRsp [] (pos connection) r) ≡ ReplyUp }
    ensures refusal { (dial : ℕ) (connection : Option ℕ) (error : List ℕ) (c : ℤ) → has error ≡ true
        → up_item dial connection (DialRsp error c (pos dial)) ≡ RefusalUp }
    ensures to_app { (connect : Bool) (app dial : ℕ) (error bytes : List ℕ)
        → stream_out_item connect app (Some dial) (Data (pos dial) error bytes) ≡ BytesOut bytes }
    ensures to_server { (connect : Bool) (app dial : ℕ) (error bytes : List ℕ)
        → stream_in_item connect app (Some dial) (Data (pos dial) error bytes) ≡ BytesIn bytes }
    ensures to_agent { (connection : ℕ) (error bytes : List ℕ) → down_item (Some connection) (Data (pos connection) error bytes) ≡ BytesDown bytes }
    ensures from_agent { (dial connection : ℕ) (error bytes : List ℕ)
        → up_item dial (Some connection) (Data (pos connection) error bytes) ≡ BytesUp bytes }
{}
