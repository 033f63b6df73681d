// The arguments of the program.
ghost use Rattle.std.specs.Prelude.{◌≤◌};
ghost use Rattle.std.specs.Vec.Iter.{into_iter_len};

use std::str::FromStr;
use std::{env, io};
use words::MOST_WORDS;

pub const USAGE: &str = "usage: check_image [--kind marks|set] [--words 1..8192] [FILE]";

#[derive(Clone, Copy)]
pub enum Kind {
    Marks,
    Set,
}

#[derive(Drop)]
pub struct Options {
    pub kind: Kind,
    // for how many words the table has room
    pub words: u16,
    // standard input if there is none
    pub path: Option<String>,
}

// An argument is wrong, or missing.
#[derive(Clone, Copy)]
pub struct WrongArgument;

// Why there are no options.
#[derive(Drop)]
pub enum OptionsFault {
    Usage,
    // the arguments cannot be read
    Arguments(io::Error),
}

impl From<WrongArgument> for OptionsFault {
    fn from(_wrong: WrongArgument) -> OptionsFault {
        OptionsFault::Usage
    }
}

impl From<io::Error> for OptionsFault {
    fn from(error: io::Error) -> OptionsFault {
        OptionsFault::Arguments(error)
    }
}

impl FromStr for Kind {
    type Err = WrongArgument;

    fn from_str(text: &str) -> Result<Kind, WrongArgument> {
        match text {
            "marks" => Ok(Kind::Marks),
            "set" => Ok(Kind::Set),
            _ => Err(WrongArgument),
        }
    }
}

fn words_of(text: &str) -> Result<u16, WrongArgument> {
    text.parse::<u16>()
        .ok()
        .filter(|words| (1..=MOST_WORDS).contains(&usize::from(*words)))
        .ok_or(WrongArgument)
}

impl Options {
    // Takes the argument up, with the value after it if it has one.
    fn take(&mut self, argument: String, rest: &mut env::Args) -> Result<(), WrongArgument>
        ensures { into_iter_len rest.new ≤ into_iter_len rest.old }
    {
        match argument.as_str() {
            "--kind" => self.kind = rest.next().ok_or(WrongArgument)?.as_str().parse::<Kind>()?,
            "--words" => self.words = words_of(rest.next().ok_or(WrongArgument)?.as_str())?,
            text => {
                if text.starts_with("--") || self.path.is_some() {
                    return Err(WrongArgument);
                }
                self.path = Some(argument);
            }
        }
        Ok(())
    }
}

// The options that the arguments give.
pub(crate) fn read_options(rt: &HostRuntime) -> Result<Options, OptionsFault> {
    let mut options = Options {
        kind: Kind::Marks,
        words: 512,
        path: None,
    };
    let mut args = env::args(rt)?;
    let _program = args.next();
    while let Some(argument) = args.next() {
        options.take(argument, &mut args)?;
    }
    Ok(options)
}
