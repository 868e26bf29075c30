/// What a pair of an agent's identifiers speaks of.
#[derive(Clone, Copy, Debug, PartialEq, Eq)]
pub enum IdKind {
    /// `ipv4`: an address of version 4 that the agent reaches.
    Ipv4,
    /// `ipv6`: an address of version 6.
    Ipv6,
    /// `host`: a name, compared without regard to the case of the letters A to Z.
    Host,
    /// `cidr`: a range of addresses.
    Cidr,
    /// `uid`: the agent's own name, which no strategy looks at.
    Uid,
    /// `default-route`: with the value `true` the agent takes every dial.
    DefaultRoute,
}

impl IdKind {
    ghost use Rattle.std.specs.Prelude.{◌≡◌};
    ghost use Rattle.kn_route.specs.Kinds.{kind_named};

    pub(crate) fn named(name: &str) -> Option<IdKind>
        ensures { result ≡ kind_named name.now }
    {
        if name == "ipv4" {
            Some(IdKind::Ipv4)
        } else if name == "ipv6" {
            Some(IdKind::Ipv6)
        } else if name == "host" {
            Some(IdKind::Host)
        } else if name == "cidr" {
            Some(IdKind::Cidr)
        } else if name == "uid" {
            Some(IdKind::Uid)
        } else if name == "default-route" {
            Some(IdKind::DefaultRoute)
        } else {
            None
        }
    }
}
