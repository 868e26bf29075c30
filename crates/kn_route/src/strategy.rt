/// How a dial finds the links that may carry it.
#[derive(Clone, Copy, Debug, PartialEq, Eq)]
pub enum Strategy {
    /// The links of agents that know the host of the dial.
    DestHost,
    /// The links of agents that take every dial.
    DefaultRoute,
    /// All links.
    Default,
}

impl Strategy {
    ghost use Rattle.std.specs.Prelude.{◌≡◌};
    ghost use Rattle.kn_route.specs.Strategies.{name_of, strategy_named, is_same};

    /// The name, as it stands in a list of strategies.
    pub fn name(&self) -> &'static str
        ensures { result.now ≡ name_of self.now }
    {
        match self {
            Strategy::DestHost => "destHost",
            Strategy::DefaultRoute => "defaultRoute",
            Strategy::Default => "default",
        }
    }

    /// The strategy of this name.
    pub(crate) fn named(name: &[u8]) -> Option<Strategy>
        ensures { result ≡ strategy_named name.now }
    {
        if name == b"destHost".as_slice() {
            Some(Strategy::DestHost)
        } else if name == b"defaultRoute".as_slice() {
            Some(Strategy::DefaultRoute)
        } else if name == b"default".as_slice() {
            Some(Strategy::Default)
        } else {
            None
        }
    }

    pub(crate) fn is_same(&self, other: &Strategy) -> bool
        ensures { result ≡ is_same self.now other.now }
    {
        match (self, other) {
            (Strategy::DestHost, Strategy::DestHost) => true,
            (Strategy::DefaultRoute, Strategy::DefaultRoute) => true,
            (Strategy::Default, Strategy::Default) => true,
            _ => false,
        }
    }
}
