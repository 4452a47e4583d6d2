//! How a run of the program ends.
ghost use Rattle.std.specs.Prelude.{◌≡◌};
ghost use Rattle.tablet_cli.specs.Statuses.{status_number};

/// How a run of the program ends. The numbers are this project's own.
#[derive(Clone, Copy, Debug, PartialEq, Eq)]
pub enum Status {
    /// The input was read to its end, and the whole text was written.
    Done = 0,
    /// The words name no command. The usage line is written.
    Usage = 2,
    /// The configuration is refused. A line that says why is written.
    BadConfig = 3,
    /// A read failed. Nothing is written.
    ReadFault = 4,
    /// A write failed. The bytes taken are a prefix of the text.
    WriteFault = 5,
    /// There was no memory. The bytes taken are a prefix of the text.
    NoMemory = 6,
    /// The input is longer than a run takes. Nothing is written.
    TooLong = 7,
    /// The input is no image of a sorted file. A line that says why is written.
    BadImage = 8,
}

impl Status {
    /// The number that the process ends with.
    pub fn number(self) -> u8
        ensures { result ≡ status_number self }
    {
        self as u8
    }
}
