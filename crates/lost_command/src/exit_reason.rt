//! Why the program ends early: one line on standard error, and the exit status.
ghost use Rattle.std.specs.Prelude.{◌≡◌, ◌≢◌};
ghost use Rattle.std.specs.IoError.{error_kind};
ghost use Rattle.std.specs.Process.{exit_status};
ghost use Rattle.lost_command.specs.ExitReasons.{reason_status};

use lost_lines::ServeError;
use std::io;
use std::io::ErrorKind;
use std::process::ExitCode;

/// The status of a run that could not begin or end.
const RUN_FAULT: u8 = 1;

/// The status of a mistake on the command line.
const COMMAND_LINE: u8 = 2;

/// The status of a check that reported a line, and of a server whose map has such a line or whose journal is damaged.
const FOUND: u8 = 3;

/// Why the program ends early (own rule).
#[derive(Clone, Copy, PartialEq, Eq, Debug)]
pub enum ExitReason {
    /// The words of the command line could not be read.
    Words,
    /// The command line has a mistake, which was reported already.
    CommandLine,
    /// `--name` is not a server's name.
    Name,
    /// `--now` is not a time.
    Now,
    /// An address cannot be listened on, which was reported already.
    Address,
    /// Standard input or output ended in a fault, or memory was refused.
    Run(ServeError),
    /// The number of workers is not allowed.
    Workers,
    /// No more connections could be accepted.
    Accept,
    /// A check found lines that would be refused or not answered, which was reported already.
    Found,
    /// A server is given no desk, no map and no journal.
    NoEdits,
    /// A file could not be read or written, which was reported already.
    File,
    /// Lines of a map were refused or not committed, which was reported already.
    MapRefused,
    /// A journal is damaged, which was reported already.
    Damaged,
}

impl ExitReason {
    /// Memory was refused.
    pub const MEMORY: ExitReason = ExitReason::Run(ServeError::Memory);

    /// Why the words of the command line could not be read: memory was refused, or there was another error, as when
    /// they are not UTF-8 (own rule).
    pub fn of_words(error: &io::Error) -> ExitReason
        ensures memory { error_kind error.now ≡ ErrorKind.OutOfMemory → result ≡ ExitReason.Run ServeError.Memory }
        ensures words { error_kind error.now ≢ ErrorKind.OutOfMemory → result ≡ ExitReason.Words }
    {
        match error.kind() {
            ErrorKind::OutOfMemory => ExitReason::MEMORY,
            _ => ExitReason::Words,
        }
    }

    /// The error text; empty if it was reported already. For a bad word, the text that follows the word (own rule).
    pub fn text(self) -> &'static str {
        match self {
            ExitReason::Words => "the command line could not be read: is it UTF-8?",
            ExitReason::CommandLine
            | ExitReason::Address
            | ExitReason::Found
            | ExitReason::File
            | ExitReason::MapRefused
            | ExitReason::Damaged => "",
            ExitReason::Name => {
                "is not a server name: it must have 1 to 253 characters, in labels of letters, digits and hyphens joined by single dots, such as lost.example"
            }
            ExitReason::Now => {
                "is not a time: it must be in UTC, such as 2026-01-01T00:00:00Z, with at most nine decimals of a second before the Z"
            }
            ExitReason::Run(ServeError::Read) => "standard input could not be read",
            ExitReason::Run(ServeError::Write) => "standard output could not be written",
            ExitReason::Run(ServeError::TurnsSpent) => {
                "the input is too long: it has more lines than --lines allows (1,000,000 by default)"
            }
            ExitReason::Run(ServeError::Memory) => "memory ran out",
            ExitReason::Workers => "there must be 1 to 64 workers",
            ExitReason::Accept => "no more connections could be accepted",
            ExitReason::NoEdits => {
                "--desk, --map and --journal are all missing: a server gets its boundaries from a desk, a map or a journal; see `lostd serve --help`"
            }
        }
    }

    /// The exit status: 1 for a fault of the run, 2 for a mistake on the command line, 3 for what a check found, a
    /// fault in a map's lines or a damaged journal (own rule).
    pub fn status(self) -> u8
        ensures { result ≡ reason_status self }
    {
        match self {
            ExitReason::Address
            | ExitReason::Run(_)
            | ExitReason::Workers
            | ExitReason::Accept
            | ExitReason::File => RUN_FAULT,
            ExitReason::Found | ExitReason::MapRefused | ExitReason::Damaged => FOUND,
            _ => COMMAND_LINE,
        }
    }

    /// Writes the error text to standard error, and gives the exit status. If standard error fails too, the status
    /// still tells (own rule).
    pub fn report<R: Eprint>(self, rt: &R) -> ExitCode
        ensures { exit_status result ≡ reason_status self }
    {
        let text = self.text();
        if !text.is_empty() {
            let _said = eprintln!(rt; "lostd: {text}");
        }
        ExitCode::from(self.status())
    }
}
