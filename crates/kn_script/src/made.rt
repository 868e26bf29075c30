ghost use Rattle.std.specs.Prelude.{◌≡◌, true};
ghost use Rattle.kn_script.specs.Script.{none_made, thing_of, with_thing, made_by, has_room_for, has_room};
ghost use Rattle.kn_script.specs.Answers.{IsWithin};

use kn_world::WorldEvent;

/// How many agents a script may make.
pub const MAX_AGENTS: usize = 100;

/// How many clients a script may make.
pub const MAX_CLIENTS: usize = 100;

/// How many apps a script may make, those of CONNECT with them.
pub const MAX_APPS: usize = 600;

/// The last number of a dial.
pub const MAX_DIAL: u64 = 0x7fff_ffff_ffff_fffe;

/// How many bytes one `take` may take.
pub const MAX_TAKE: u64 = 0x7fff_ffff_ffff_fffe;

/// How many rounds one `pass` may have.
pub const MAX_ROUNDS: u64 = 10_000;

/// How many rounds a `pass` without a number has.
pub const DEFAULT_ROUNDS: u64 = 64;

/// What an event makes, of the things that have numbers in a script.
#[derive(Clone, Copy)]
pub enum Thing {
    Agent,
    Client,
    App,
    Nothing,
}

/// What an event makes.
fn thing_of(event: &WorldEvent) -> Thing
    ensures { result ≡ thing_of event.now }
{
    match event {
        WorldEvent::Agent { .. } => Thing::Agent,
        WorldEvent::Client => Thing::Client,
        WorldEvent::App { .. } => Thing::App,
        WorldEvent::Connect { .. } => Thing::App,
        WorldEvent::Raw { .. } => Thing::App,
        WorldEvent::Up { .. } => Thing::Nothing,
        WorldEvent::Refuse { .. } => Thing::Nothing,
        WorldEvent::Send { .. } => Thing::Nothing,
        WorldEvent::Answer { .. } => Thing::Nothing,
        WorldEvent::End { .. } => Thing::Nothing,
        WorldEvent::Hang { .. } => Thing::Nothing,
        WorldEvent::Fail { .. } => Thing::Nothing,
        WorldEvent::Drain { .. } => Thing::Nothing,
        WorldEvent::HoldDest { .. } => Thing::Nothing,
        WorldEvent::HoldApp { .. } => Thing::Nothing,
        WorldEvent::TakeDest { .. } => Thing::Nothing,
        WorldEvent::TakeApp { .. } => Thing::Nothing,
        WorldEvent::GoDest { .. } => Thing::Nothing,
        WorldEvent::GoApp { .. } => Thing::Nothing,
        WorldEvent::LoseServer { .. } => Thing::Nothing,
        WorldEvent::LoseAgent { .. } => Thing::Nothing,
        WorldEvent::LoseFront { .. } => Thing::Nothing,
        WorldEvent::LoseClient { .. } => Thing::Nothing,
        WorldEvent::Step { .. } => Thing::Nothing,
        WorldEvent::Pass { .. } => Thing::Nothing,
    }
}

/// How many agents, clients and apps the lines so far made.
#[derive(Clone, Copy)]
pub struct Made {
    pub agents: usize,
    pub clients: usize,
    pub apps: usize,
}

impl Made {
    pub fn nothing() -> Made
        ensures { result ≡ none_made }
    {
        Made {
            agents: 0,
            clients: 0,
            apps: 0,
        }
    }

    fn has_room_for(&self, thing: Thing) -> bool
        ensures { result ≡ has_room_for self.now thing }
    {
        match thing {
            Thing::Agent => self.agents < MAX_AGENTS,
            Thing::Client => self.clients < MAX_CLIENTS,
            Thing::App => self.apps < MAX_APPS,
            Thing::Nothing => true,
        }
    }

    /// Whether an event stays within the limits.
    pub fn has_room(&self, event: &WorldEvent) -> bool
        ensures { result ≡ has_room self.now event.now }
    {
        self.has_room_for(thing_of(event))
    }

    fn with_thing(&self, thing: Thing) -> Made
        requires within { IsWithin self.now }
        requires room { has_room_for self.now thing ≡ true }
        ensures made { result ≡ with_thing thing self.now }
        ensures within { IsWithin result }
    {
        match thing {
            Thing::Agent => Made {
                agents: self.agents + 1,
                ..*self
            },
            Thing::Client => Made {
                clients: self.clients + 1,
                ..*self
            },
            Thing::App => Made {
                apps: self.apps + 1,
                ..*self
            },
            Thing::Nothing => *self,
        }
    }

    /// What is made after an event.
    pub fn and(&self, event: &WorldEvent) -> Made
        requires within { IsWithin self.now }
        requires room { has_room self.now event.now ≡ true }
        ensures made { result ≡ made_by event.now self.now }
        ensures within { IsWithin result }
    {
        self.with_thing(thing_of(event))
    }
}
