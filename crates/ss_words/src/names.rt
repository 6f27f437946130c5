//! The commands and the options, by name.

ghost use Rattle.std.specs.Prelude.{◌≡◌, ◌≢◌, if◌then◌else◌, MatchOption};
ghost use Rattle.ss_words.specs.declared.names.OptionName.TheVariants.{Recovery};
ghost use Rattle.ss_words.specs.Words.{dashed, fits, mode_said};

use ss_model::Mode;

/// What a show of the benchmark is made from.
///
/// Each of the three has to be asked for, instead of having a default, because a figure is only worth what was asked
/// for.
#[derive(Clone, Copy, Debug, PartialEq, Eq, Drop)]
pub struct Show {
    /// What the calls are drawn from: 0 to 9999999.
    pub seed: u64,
    /// How many votes are called in: 1 to 200000.
    pub votes: u64,
    /// How many clients call them in: 1 to 8.
    pub clients: u8,
}

/// A command. Which word it is, and which options may and must stand behind it, is in the definition, `specs/Words.antt`.
#[derive(Clone, Copy, Debug, PartialEq, Eq, Drop)]
pub enum Command {
    /// `run`: reads a catalogue and requests, runs them and reports.
    Run,
    /// `recover`: reads nothing, and reports what a store has once all that was pending has run.
    Recover,
    /// `audit`: reads a catalogue, requests and a report, and says whether the report is that of their run.
    Audit,
    /// `voter`: runs a show of the benchmark.
    Voter(Show),
}

/// An option. What it is called and which values fit it stand in the definition, `specs/Words.antt`.
#[derive(Clone, Copy, Debug, PartialEq, Eq, Drop)]
pub enum OptionName {
    /// `--partitions`: a number from 1 to 8.
    Partitions,
    /// `--recovery`: the word `strong` or `weak`.
    Recovery,
    /// `--seed`: a number from 0 to 9999999.
    Seed,
    /// `--votes`: a number from 1 to 200000.
    Votes,
    /// `--clients`: a number from 1 to 8.
    Clients,
    /// `--checkpoint`: a number from 1 to 1000000.
    Checkpoint,
    /// `--restarts`: a number from 0 to 16.
    Restarts,
}

/// The option whose name this is, with its two dashes. Constant in time.
pub(crate) fn option_named(word: &str) -> Option<OptionName>
    ensures { MatchOption result ((name : OptionName) → word.now ≢ dashed name) (λ name. word.now ≡ dashed name) }
{
    match word {
        "--partitions" => Some(OptionName::Partitions),
        "--recovery" => Some(OptionName::Recovery),
        "--seed" => Some(OptionName::Seed),
        "--votes" => Some(OptionName::Votes),
        "--clients" => Some(OptionName::Clients),
        "--checkpoint" => Some(OptionName::Checkpoint),
        "--restarts" => Some(OptionName::Restarts),
        _ => None,
    }
}

/// The mode of recovery that this word says, where it is one of the two. Constant in time.
pub(crate) fn mode_named(word: &str) -> Option<Mode>
    ensures { result ≡ if fits Recovery word.now then Some (mode_said word.now) else None }
{
    match word {
        "strong" => Some(Mode::Strong),
        "weak" => Some(Mode::Weak),
        _ => None,
    }
}
