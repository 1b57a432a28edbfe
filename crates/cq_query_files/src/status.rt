//! The outcomes of a call of the program.
ghost use Rattle.std.specs.Prelude.{◌≡◌};
ghost use Rattle.cq_query_files.specs.Status.{exit_code};

/// The outcome of a call. The program's exit status is the place in this list, from 0.
#[derive(Clone, Copy, Debug, PartialEq, Eq)]
pub enum Status {
    /// All games of the job were searched, and none is faulty. With `--first` they are those up to the first match.
    Done,
    /// All games of the job were searched, and some are faulty.
    DoneWithRefusals,
    /// The query is faulty, or one in a file of queries; or that file has too many bytes or queries.
    QueryRefused,
    /// The words are no command.
    WordsRefused,
    /// A file could not be opened.
    OpenFault,
    /// A read failed.
    ReadFault,
    /// A write failed.
    WriteFault,
    /// Out of memory.
    NoMemory,
    /// The archive has more bytes than the limit.
    ArchiveTooLong,
}

impl Status {
    /// Returns the program's exit status.
    pub fn exit_code(self) -> u8
        ensures { result ≡ exit_code self }
    {
        self as u8
    }
}
