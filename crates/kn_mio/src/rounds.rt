use kn_port::Ready;

// How often one connection is read, or written, or one gate asked, between two waits, so that a wait comes also
// where one of them never rests.
const ROUNDS: u32 = 16;

/// How often something was asked since the last wait, and whether it was put off since then.
#[derive(Clone, Copy, Debug, PartialEq, Eq)]
pub(crate) struct Rounds {
    /// The wait behind which the rounds are counted.
    wait: u64,
    reads: u32,
    writes: u32,
    is_owed: bool,
}

impl Rounds {
    pub(crate) fn new() -> Rounds {
        Rounds {
            wait: 0,
            reads: 0,
            writes: 0,
            is_owed: false,
        }
    }

    fn begin_at(&mut self, wait: u64) {
        if self.wait != wait {
            *self = Rounds {
                wait,
                reads: 0,
                writes: 0,
                is_owed: false,
            };
        }
    }

    /// Whether one more read may be made before the next wait. The last wait has this number.
    pub(crate) fn may_read(&mut self, wait: u64) -> bool {
        self.begin_at(wait);
        if self.reads < ROUNDS {
            self.reads += 1;
            return true;
        }
        false
    }

    /// Whether one more write may be made before the next wait.
    pub(crate) fn may_write(&mut self, wait: u64) -> bool {
        self.begin_at(wait);
        if self.writes < ROUNDS {
            self.writes += 1;
            return true;
        }
        false
    }

    /// Notes once that the next wait is to name it, and tells whether that is noted: there may be no room.
    pub(crate) fn put_off(&mut self, owed: &mut Vec<Ready>, name: Ready) -> bool {
        if self.is_owed {
            return true;
        }
        self.is_owed = owed.push(name).is_ok();
        self.is_owed
    }
}
