//! The words of the command line, each of which is a command.
use std::process::ExitCode;
use std::rt::Env;
use std::{env, io};

/// The exit status where no command is given, or an unknown one.
const COMMAND_LINE: u8 = 2;

/// How a program ends.
#[derive(Drop)]
pub struct End<'a> {
    program: &'a str,
    commands: &'a [&'a str],
    is_known: bool,
    is_right: bool,
}

/// The words of the command line up to the first that is no command, and how the program ends.
///
/// # Errors
/// Those of the command line, and `OutOfMemory`.
pub fn given<'a, R: Env + AllocGlobal>(
    rt: &R,
    program: &'a str,
    commands: &'a [&'a str],
) -> io::Result<(Vec<String>, End<'a>)> {
    let mut words = Vec::new(rt.alloc());
    let mut is_known = false;
    for word in env::args(rt)?.skip(1) {
        is_known = commands.contains(&word.as_str());
        if !is_known {
            break;
        }
        words.push(word)?;
    }
    let end = End {
        program,
        commands,
        is_known,
        is_right: true,
    };
    Ok((words, end))
}

impl End<'_> {
    /// Says whether all rows of a command are right.
    pub fn add(&mut self, is_right: bool) {
        self.is_right = self.is_right && is_right;
    }

    /// The exit status: 2 where no word was given, or one that is no command (standard error then names the commands);
    /// otherwise 1 where a row is wrong.
    ///
    /// # Errors
    /// Those of standard error.
    pub fn status<R: Eprint>(&self, rt: &R) -> io::Result<ExitCode> {
        if self.is_known {
            return Ok(if self.is_right {
                ExitCode::SUCCESS
            } else {
                ExitCode::FAILURE
            });
        }
        eprint!(rt; "{}: give one or more of the words", self.program)?;
        let mut before = " ";
        for command in self.commands {
            eprint!(rt; "{before}{command}")?;
            before = ", ";
        }
        eprintln!(rt)?;
        Ok(ExitCode::from(COMMAND_LINE))
    }
}
