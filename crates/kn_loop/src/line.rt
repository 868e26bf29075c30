ghost use Rattle.std.specs.Prelude.{◌≡◌};
ghost use Rattle.kn_loop.specs.Watch.{line_is_settled, new_line, line_read, line_wrote, line_named, line_dialled, line_may_ask, line_may_read, line_may_write};

use kn_port::{DialEnd, PortGot, Took};

/// A connection as the port's answers tell of it.
#[derive(Clone, Copy, Debug, PartialEq, Eq)]
pub struct Line {
    /// Its dial is under way.
    pub dialling: bool,
    /// The end of its dial was asked for, or a wait named it.
    pub asked: bool,
    /// Its last read, or the last question for the end of its dial, answered `NotYet`, and no later wait named it.
    pub read_waits: bool,
    /// Its last write answered `NotYet`, and no later wait named it.
    pub write_waits: bool,
    /// A read answered `End`.
    pub ended: bool,
    /// A call answered `Failed`.
    pub failed: bool,
    /// It leads to the server.
    pub is_server: bool,
}

impl Line {
    /// A connection that was accepted, or one that is begun.
    pub fn new(dialling: bool, is_server: bool) -> Line
        ensures { result ≡ new_line dialling is_server }
    {
        Line {
            dialling,
            asked: false,
            read_waits: false,
            write_waits: false,
            ended: false,
            failed: false,
            is_server,
        }
    }

    /// Whether there is nothing to do here but to wait.
    pub fn is_settled(&self, wants: bool, has_out: bool) -> bool
        ensures { result ≡ line_is_settled self.now wants has_out }
    {
        if self.failed {
            return true;
        }
        if self.dialling {
            return self.read_waits || !self.asked;
        }
        (self.ended || self.read_waits || !wants) && (self.write_waits || !has_out)
    }

    /// After a read that answered this.
    pub fn after_read(self, got: PortGot) -> Line
        ensures { result ≡ line_read got self }
    {
        let mut line = self;
        line.read_waits = false;
        match got {
            PortGot::Bytes(_) => line,
            PortGot::NotYet => {
                line.read_waits = true;
                line
            }
            PortGot::End => {
                line.ended = true;
                line
            }
            PortGot::Failed => {
                line.failed = true;
                line
            }
            PortGot::NoMemory => self,
        }
    }

    /// After a write that answered this.
    pub fn after_write(self, took: Took) -> Line
        ensures { result ≡ line_wrote took self }
    {
        let mut line = self;
        line.write_waits = false;
        match took {
            Took::Bytes(_) => line,
            Took::NotYet => {
                line.write_waits = true;
                line
            }
            Took::Failed => {
                line.failed = true;
                line
            }
            Took::NoMemory => self,
        }
    }

    /// After this answer to what came of its dial.
    pub fn after_dial_end(self, end: DialEnd) -> Line
        ensures { result ≡ line_dialled end self }
    {
        let mut line = self;
        line.asked = true;
        line.read_waits = false;
        match end {
            DialEnd::Up => {
                line.dialling = false;
                line
            }
            DialEnd::NotYet => {
                line.read_waits = true;
                line
            }
            DialEnd::Failed => {
                line.failed = true;
                line
            }
            DialEnd::NoMemory => self,
        }
    }

    /// Whether the end of its dial may be asked for.
    pub fn may_ask(&self) -> bool
        ensures { result ≡ line_may_ask self.now }
    {
        self.dialling && !self.failed
    }

    /// Whether its bytes may be asked for.
    pub fn may_read(&self) -> bool
        ensures { result ≡ line_may_read self.now }
    {
        !self.dialling && !self.ended && !self.failed
    }

    /// Whether bytes may be written on it.
    pub fn may_write(&self) -> bool
        ensures { result ≡ line_may_write self.now }
    {
        !self.dialling && !self.failed
    }

    /// After a wait that named it.
    pub fn after_wait(self) -> Line
        ensures { result ≡ line_named self }
    {
        let mut line = self;
        line.asked = true;
        line.read_waits = false;
        line.write_waits = false;
        line
    }
}
