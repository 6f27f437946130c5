//! The words of the command line of the program `sstore`, read exactly.
//!
//! A command is its word, and options behind it in any order, none twice. An option is written in two words, its name and
//! its value, or in one with `=` between them. The commands are `run`, `recover`, `audit` and `voter`. Behind `audit` stands no
//! option, and each of the others may have two:
//!
//! - `--partitions`, a number from 1 to 8: into how many partitions the database is split, 1 where it isn't said
//! - `--recovery`, the word `strong` or `weak`: what is logged, and so how the state is had again after a crash, strong where it
//!   isn't said
//!
//! Behind `run` and `voter` may stand two more:
//!
//! - `--checkpoint`, a number from 1 to 1000000: from how many entries behind the last checkpoint on the next is due, and
//!   none is made where it isn't said
//! - `--restarts`, a number from 0 to 16: how often at most a run whose disk failed opens it again and goes on, 0 where it isn't
//!   said. With 1 or more, recovery has to be strong, so that `--recovery weak` goes with `--restarts 0` alone
//!
//! Behind `voter` must stand three more, which no other command has. They say which show of the benchmark is run:
//!
//! - `--seed`, a number from 0 to 9999999: what its calls are drawn from
//! - `--votes`, a number from 1 to 200000: how many are called in
//! - `--clients`, a number from 1 to 8: how many call them in
//!
//! A number is one digit to seven.
//!
//! A command more is a variant of `Command`, a line in `Found::command`, and in `specs/` a line for its word, its options, what it
//! has of them, and what it needs of those found.
//! An option more is a variant of `OptionName`, a line in `option_named`, a field and an arm in `found`, and in `specs/` a line
//! for its name, its values, what is kept of it, and its place in the lists of the commands. Which options don't go together
//! is said in `GoTogether`, and tested in `Found::go_together`.
//!
//! Source: S-Store (Meehan et al., PVLDB 8, 2015) for strong and weak recovery and for checkpoints, for the partitions of H-Store,
//! on which it stands, and for the benchmark of a voted show.
//! How the words are written is this project's own rule.
//!
//! - `names`: the commands and the options, by name
//! - `numbers`: numbers within a range
//! - `found`: the options that were found so far, and the command that they suit
//! - `command`: `command_line`, what the words ask for
//! - `laws`: words spell one list of options at most
//!
//! # Promises
//!
//! - `command_line`: None exactly where the words are no command (`IsCommand`), and else the command with just what its
//!   options ask for (`AsksFor`).
//! - Law `words_have_one_spelling`: words spell one list of options at most.
//!
//! # Choices
//!
//! - Weak recovery and restarts are no command together, instead of a run that doesn't restart, or that goes on strongly, because
//!   what was asked for is then never left out without a word. They don't go together because a weak run's history begins at
//!   an origin, and no law carries an origin over an opening in mid-run.
//! - The mode is a type of `ss_model`, instead of one of this crate, because what opens a store takes that one.
#![tactic(auto)]

mod command;
mod found;
mod laws;
mod names;
mod numbers;

pub use command::{CommandLine, Options, command_line};
pub use laws::words_have_one_spelling;
pub use names::{Command, OptionName, Show};
