//! The laws of one tunnel. Each speaks of every list of events that may come, one after another, from an app's first request on.

ghost use Rattle.std.specs.Prelude.{[], ◌≡◌, ◌≤◌, ◌||◌, Bool, List, false, true, ℕ};
ghost use Rattle.kn_tunnel.specs.Bytes.{app_has};
ghost use Rattle.kn_tunnel.specs.ConnectRows.{InOneConnectRow};
ghost use Rattle.kn_tunnel.specs.Cuts.{IsPrefixOf};
ghost use Rattle.kn_tunnel.specs.Events.{AgentTakesClose, AppHands, ClientTakesClose, ClientTakesReply, Event, FrontLost, LinkLostAtServer, ServerTakesCancel, ServerTakesIn, ServerTakesReply};
ghost use Rattle.kn_tunnel.specs.Facts.{Facts};
ghost use Rattle.kn_tunnel.specs.Kinds.{has, is_awaited, is_dialling, is_draining, is_drawn, is_gone, is_held, is_listed, is_opened, is_present, needs_front, no_entry};
ghost use Rattle.kn_tunnel.specs.LinkRows.{InOneLinkRow};
ghost use Rattle.kn_tunnel.specs.LinkSide.{link_view, no_cid};
ghost use Rattle.kn_tunnel.specs.Order.{in_order};
ghost use Rattle.kn_tunnel.specs.Outcome.{Reached, is_accounted, is_closed, is_emptied, is_quiet, places};
ghost use Rattle.kn_tunnel.specs.Steps.{Follows, Makes, May, after, may, start};
ghost use Rattle.kn_tunnel.specs.StreamRows.{InStreamRow, is_ending};
ghost use Rattle.kn_tunnel.specs.Tunnel.{Closing, Downward, Ended, Joined, NoEntry, Outward, Tunnel, sent};

/// All that holds of a tunnel: at its app's first request, after each event, and so after every list of events.
pub fn facts_hold()
    ensures start { (connect : Bool) → Facts (start connect) }
    ensures kept { (e : Event) (t : Tunnel) → May e t → Facts t → Facts (after e t) }
    ensures followed { (old new : Tunnel) → Follows old new → Facts old → Facts new }
    ensures always { (connect : Bool) (events : List Event) (t : Tunnel) → Makes (start connect) events t → Facts t }
{}

/// A run begins with an app's first request and goes on by one event, or none: so a crate whose moves are such events for each of its tunnels has the laws of all.
pub fn runs_go_on()
    ensures begin { (connect : Bool) → Reached (start connect) }
    ensures go_on { (old new : Tunnel) → Follows old new → Reached old → Reached new }
{}

/// The tables. On a link that both ends have, each drawn connectID is in exactly one row; on a client's stream that both ends have, each app is in a row;
/// each CONNECT connection is in exactly one row, whoever has it.
pub fn tables_hold()
    ensures link { (t : Tunnel) → Facts t → t.server ≡ true → t.agent ≡ true → t.cid ≡ true → InOneLinkRow t }
    ensures stream { (t : Tunnel) → Facts t → t.connect ≡ false → t.client ≡ true → is_gone t.front ≡ false
        → InStreamRow t }
    ensures connection { (t : Tunnel) → Facts t → t.connect ≡ true → InOneConnectRow t }
{}

/// What the three ends hold of a tunnel fits together, also where an end lost its link or stream.
pub fn holdings_fit()
    ensures entry_has_link { (t : Tunnel) → Facts t → no_entry t.entry ≡ false → t.server ≡ true }
    ensures entry_has_front { (t : Tunnel) → Facts t → needs_front t.entry ≡ true → is_present t.front ≡ true }
    // an app that is open, has ended or drains
    ensures app_has_dial { (t : Tunnel) → Facts t → (is_opened t.phase || is_ending t.phase || is_draining t.phase) ≡ true
        → is_drawn t.far ≡ true }
    // an app that dials got nothing, and nothing is to be written to it
    ensures dialling_has_nothing { (t : Tunnel) → Facts t → is_dialling t.phase ≡ true → app_has t ≡ [] }
    // a connectID that was not drawn stands nowhere
    ensures undrawn { (t : Tunnel) → Facts t → t.cid ≡ false → no_cid (link_view t) ≡ true }
    // so a second reply for a held connectID never comes
    ensures reply_finds_none_held { (t : Tunnel) → Facts t → t.up.reply ≡ true → is_held t.entry ≡ false }
    ensures dial_stands_once { (t : Tunnel) → Facts t → places t ≤ 1 }
    ensures awaited_stands { (t : Tunnel) → Facts t → t.server ≡ true → t.agent ≡ true → is_awaited t.entry ≡ true
        → places t ≡ 1 }
{}

/// What was delivered, either way, is the beginning of what was sent.
pub fn delivered_is_a_prefix()
    ensures to_app { (t : Tunnel) → Reached t → IsPrefixOf t.app.got (sent t.dest) }
    ensures to_destination { (t : Tunnel) → Reached t → IsPrefixOf t.dest.got (sent t.app) }
{}

/// Every connection that an agent holds has its open entry at the server, a reply or a close on the way, lingers, or the server lost the link.
pub fn connections_are_accounted_for()
    ensures accounted { (t : Tunnel) → Reached t → is_listed t.far ≡ true → is_accounted t ≡ true }
{}

/// A tunnel that is quiet and closed has no entry, no dial and no connection.
pub fn closed_tunnels_leave_nothing()
    ensures emptied { (t : Tunnel) → Reached t → is_quiet t ≡ true → is_closed t ≡ true → is_emptied t ≡ true }
{}

/// Whatever an event appends to a list may follow what is there.
pub fn lists_keep_their_order()
    ensures appended { (e : Event) (t : Tunnel) → Reached t → May e t → in_order e t ≡ true }
{}

/// Rules of single events, one for each wrong turn that would lose a byte, an entry or a connection, or tell an end twice.
pub fn rules_hold()
    // a reply that nobody awaits is answered by CLOSE_REQ
    ensures unawaited_reply { (t : Tunnel) → t.entry ≡ NoEntry → t.agent ≡ true
        → (after ServerTakesReply t).down.close ≡ true }
    // so is a reply for an app that has left
    ensures late_reply { (t : Tunnel) → t.phase ≡ Ended → is_gone t.front ≡ false
        → (after ClientTakesReply t).inward.close ≡ true }
    // a cancelled dial is no longer awaited
    ensures cancelled_dial { (t : Tunnel) → is_awaited t.entry ≡ true → (after ServerTakesCancel t).entry ≡ NoEntry }
    // a lost link keeps no entry, awaited or held
    ensures lost_link { (t : Tunnel) (left : Downward) (request_left : Bool)
        → (after (LinkLostAtServer left request_left) t).entry ≡ NoEntry }
    // the loss of a front that is closing asks the agent for nothing more
    ensures closing_front_lost { (t : Tunnel) (left : Outward) → t.entry ≡ Closing → (after (FrontLost left) t).down ≡ t.down }
    // a close drops no byte that has come
    ensures close_keeps_bytes { (t : Tunnel) → (after AgentTakesClose t).dest ≡ t.dest }
    ensures app_close_keeps_bytes { (t : Tunnel) → (after ClientTakesClose t).app ≡ t.app }
    // and is not answered while bytes are unwritten
    ensures close_waits { (t : Tunnel) → t.far ≡ Joined → has t.dest.unwritten ≡ true → (after AgentTakesClose t).up ≡ t.up }
    // a client hands over nothing of an app that dials
    ensures dialling_app { (count : ℕ) (t : Tunnel) → t.connect ≡ false → is_dialling t.phase ≡ true
        → may (AppHands count) t ≡ false }
    // the early bytes of a CONNECT connection are not taken before the reply
    ensures early_bytes { (count : ℕ) (t : Tunnel) → t.connect ≡ true → is_awaited t.entry ≡ true
        → may (ServerTakesIn count) t ≡ false }
{}
