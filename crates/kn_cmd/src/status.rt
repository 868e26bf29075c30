ghost use Rattle.std.specs.Prelude.{◌≡◌};
ghost use Rattle.kn_cmd.specs.Status.{number_of, message_of};

/// How a plain command ends.
#[derive(Clone, Copy, Debug, PartialEq, Eq)]
pub enum Status {
    /// The input was read to its end, and the output written.
    Done,
    /// The words are not those of a command.
    Usage,
    /// The input breaks its grammar.
    BadInput,
    /// The input could not be read.
    ReadFault,
    /// The output could not be written.
    WriteFault,
    /// The input has more bytes than the limit, or a script more lines.
    TooLong,
    /// Memory ran out.
    NoMemory,
}

impl Status {
    /// The status of the process.
    pub fn number(self) -> u8
        ensures { result ≡ number_of self }
    {
        match self {
            Status::Done => 0,
            Status::Usage => 2,
            Status::BadInput => 3,
            Status::ReadFault => 4,
            Status::WriteFault => 5,
            Status::TooLong => 6,
            Status::NoMemory => 7,
        }
    }

    /// What is told of it on the error output. That of a bad input names the place, and is made with it.
    #[tactic(auto, unfolding(crate::specs::Status::message_of))]
    pub(crate) fn message(self) -> &'static [u8]
        ensures { result.now ≡ message_of self }
    {
        match self {
            Status::Done | Status::BadInput => b"",
            Status::Usage => b"kn: usage\n",
            Status::ReadFault => b"kn: read fault\n",
            Status::WriteFault => b"kn: write fault\n",
            Status::TooLong => b"kn: input too long\n",
            Status::NoMemory => b"kn: no memory\n",
        }
    }
}
