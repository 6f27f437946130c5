//! What the words of a command line ask for.

ghost use Rattle.std.specs.Prelude.{List, ℕ, ◌≡◌, MatchOption};
ghost use Rattle.ss_words.specs.Words.{Asked, asked, words_of, StartsWith, AreNoOptions, IsCommand, AsksFor};
ghost use Rattle.ss_words.specs.Found.{HaveFound};

use crate::found::Found;
use crate::names::{Command, OptionName, option_named};
use ss_model::Mode;

/// What the options of a command ask for.
#[derive(Clone, Copy, Debug, PartialEq, Eq, Drop)]
pub struct Options {
    /// Into how many partitions the database is split: 1 to 8, and 1 where no option says it.
    pub partitions: u8,
    /// What the store logs, and how it is had again: strong where no option says it, and in a run over restarts.
    pub mode: Mode,
    /// From how many entries behind the last checkpoint on the next is due: 1 to 1000000, and none is made where no option says it.
    pub every: Option<u64>,
    /// How often at most a run whose disk failed opens it again and goes on: 0 to 16, and never where no option says it.
    pub restarts: u8,
}

/// The option at the front of the words, by its name, its value and the words behind it. Linear in the bytes of its words.
fn front_option(words: &[String]) -> Option<(OptionName, &str, &[String])>
    ensures { MatchOption result ((option : Asked) (rest : List (List ℕ)) → ¬ (StartsWith (words_of words.now) option rest))
        (λ p. StartsWith (words_of words.now) (asked p.0 p.1.now) (words_of p.2.now)) }
{
    let (word, behind) = words.split_first()?;
    if let Some((name, value)) = word.as_str().split_once('=') {
        return Some((option_named(name)?, value, behind));
    }
    let name = option_named(word.as_str())?;
    let (value, behind) = behind.split_first()?;
    // It is more likely the next option than a value.
    if value.as_str().starts_with('-') {
        return None;
    }
    Some((name, value.as_str(), behind))
}

/// What the words say, where they are options, none twice, each with a value that fits it. Linear in their bytes.
fn read_options(words: &[String]) -> Option<Found>
    ensures { MatchOption result (AreNoOptions (words_of words.now)) (HaveFound (words_of words.now)) }
{
    let mut found = Found::nothing();
    let mut left = words;
    while !left.is_empty() {
        let (name, value, behind) = front_option(left)?;
        found = found.with(name, value)?;
        left = behind;
    }
    Some(found)
}

/// What a command line asks for.
#[derive(Clone, Copy, Debug, PartialEq, Eq, Drop)]
pub struct CommandLine {
    pub command: Command,
    pub options: Options,
}

/// What the words of a command line ask for, where they are a command and options behind it; `None` just where they are not.
/// The words are those behind the program's own name, and behind the path of the store.
///
/// Costs time linear in the bytes of the words, and takes no memory.
pub fn command_line(words: &[String]) -> Option<CommandLine>
    ensures { MatchOption result (¬ (IsCommand (words_of words.now))) (AsksFor (words_of words.now)) }
{
    let (word, behind) = words.split_first()?;
    let found = read_options(behind)?;
    let command = found.command(word.as_str())?;
    let options = Options {
        partitions: found.partitions.unwrap_or(1),
        mode: found.recovery.unwrap_or(Mode::Strong),
        every: found.every,
        restarts: found.restarts.unwrap_or(0),
    };
    Some(CommandLine { command, options })
}
