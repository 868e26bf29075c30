ghost use Rattle.std.specs.Prelude.{◌≡◌};

/// Which end of a connection this is.
#[derive(Clone, Copy, Debug, PartialEq, Eq)]
pub enum Role {
    /// The peer sends the preface and opens the streams.
    Server,
    Client,
}

impl Role {
    ghost use Rattle.kn_h2_state.specs.Rules.{is_client};

    pub fn is_client(self) -> bool
        ensures { result ≡ is_client self }
    {
        match self {
            Role::Server => false,
            Role::Client => true,
        }
    }
}
