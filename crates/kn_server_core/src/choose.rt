ghost use Rattle.std.specs.Prelude.{◌≡◌, ◌≢◌, OnOk, Ok, Err, not, nat_lt, MatchResult};
ghost use Rattle.kn_tables.specs.Lists.{count_where};
ghost use Rattle.kn_server_core.specs.Server.{dial_choice, tunnels_of};
ghost use Rattle.kn_server_core.specs.Server as spec;

use crate::state::State;
use kn_route::host_of;

/// The most dials of one front that are awaited or held together.
pub(crate) const TUNNEL_LIMIT: usize = 600;

/// The number that no dial draws: dial numbers are below 2^63 − 1.
pub(crate) const LAST_DIAL: u64 = 9_223_372_036_854_775_807;

/// Whether a front has as many dials awaited or held as it may have.
pub(crate) fn is_full(state: &State, front: u64) -> bool
    ensures { result ≡ not (nat_lt (tunnels_of state.now front) TUNNEL_LIMIT) }
{
    let awaited = state.awaited.count_of_front(front);
    awaited >= TUNNEL_LIMIT || state.held.count_of_front(front) >= TUNNEL_LIMIT - awaited
}

/// Whether a dial is by TCP.
pub(crate) fn is_tcp(protocol: &str) -> bool
    ensures { result ≡ spec.is_tcp protocol.now }
{
    protocol == "tcp"
}

/// The link that a dial goes to, or the text of the first cause that refuses it. It takes no memory.
pub(crate) fn choose(
    state: &State,
    front: u64,
    protocol: &str,
    address: &str,
    random: i64,
) -> Result<u64, &'static str>
    ensures left { OnOk result (state.now.next_dial ≢ 9223372036854775807) }
    ensures chosen { MatchResult result (λ link. dial_choice state.now front protocol.now address.now random ≡ Ok link) (λ text. dial_choice state.now front protocol.now address.now random ≡ Err text.now) }
{
    if state.awaited.find_random(front, random).is_some() {
        return Err("dial already awaited");
    }
    if !is_tcp(protocol) {
        return Err("unsupported protocol");
    }
    let Ok(host) = host_of(address) else {
        return Err("bad address");
    };
    if is_full(state, front) {
        return Err("too many tunnels");
    }
    let Some((_, link)) = state.links.pick(&state.strategies, host, state.next_dial) else {
        return Err("no agent available");
    };
    if state.next_dial == LAST_DIAL {
        return Err("dial numbers used up");
    }
    Ok(link)
}
