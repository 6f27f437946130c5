//! The options that were found so far, and the command that they suit.

ghost use Rattle.std.specs.Prelude.{◌≡◌, ◌↔◌, if◌then◌else◌, unwrap_or, MatchOption};
ghost use Rattle.std.specs.Bool.{IsTrue};
ghost use Rattle.ss_model.specs.declared.entry.Mode.TheVariants.{Strong};
ghost use Rattle.ss_words.specs.Words.{asked, GoTogether};
ghost use Rattle.ss_words.specs.Found.{nothing_found, can_take, with_option, is_any, is_for_run, is_for_show, HasShow, Suits};

use crate::names::{Command, OptionName, Show, mode_named};
use crate::numbers::number_within;
use ss_model::Mode;

/// What each option was found with: a field for each.
#[derive(Clone, Copy, Drop)]
pub(crate) struct Found {
    /// The number of partitions.
    pub(crate) partitions: Option<u8>,
    /// The mode of recovery.
    pub(crate) recovery: Option<Mode>,
    /// The seed of a show.
    pub(crate) seed: Option<u64>,
    /// The number of its votes.
    pub(crate) votes: Option<u64>,
    /// The number of its clients.
    pub(crate) clients: Option<u8>,
    /// From how many entries on a checkpoint is due.
    pub(crate) every: Option<u64>,
    /// How often the disk may be opened again.
    pub(crate) restarts: Option<u8>,
}

impl Found {
    /// No option.
    pub(crate) fn nothing() -> Found
        ensures { result ≡ nothing_found }
    {
        Found {
            partitions: None,
            recovery: None,
            seed: None,
            votes: None,
            clients: None,
            every: None,
            restarts: None,
        }
    }

    /// These options and one more, or none where it was found already or its value doesn't fit. Linear in the value's bytes.
    pub(crate) fn with(mut self, name: OptionName, value: &str) -> Option<Found>
        ensures { result ≡ if can_take self (asked name value.now) then Some (with_option self (asked name value.now)) else None }
    {
        match name {
            OptionName::Partitions if self.partitions.is_none() => {
                self.partitions = Some(number_within(value, 1, 8)? as u8);
            }
            OptionName::Recovery if self.recovery.is_none() => {
                self.recovery = Some(mode_named(value)?);
            }
            OptionName::Seed if self.seed.is_none() => {
                self.seed = Some(u64::from(number_within(value, 0, 9_999_999)?));
            }
            OptionName::Votes if self.votes.is_none() => {
                self.votes = Some(u64::from(number_within(value, 1, 200_000)?));
            }
            OptionName::Clients if self.clients.is_none() => {
                self.clients = Some(number_within(value, 1, 8)? as u8);
            }
            OptionName::Checkpoint if self.every.is_none() => {
                self.every = Some(u64::from(number_within(value, 1, 1_000_000)?));
            }
            OptionName::Restarts if self.restarts.is_none() => {
                self.restarts = Some(number_within(value, 0, 16)? as u8);
            }
            _ => return None,
        }
        Some(self)
    }

    /// Whether an option was found that only a show has.
    fn is_for_show(self) -> bool
        ensures { result ≡ is_for_show self }
    {
        self.seed.is_some() || self.votes.is_some() || self.clients.is_some()
    }

    /// Whether an option was found that only a run and a show have.
    fn is_for_run(self) -> bool
        ensures { result ≡ is_for_run self }
    {
        self.every.is_some() || self.restarts.is_some()
    }

    /// Whether any option was found.
    fn is_any(self) -> bool
        ensures { result ≡ is_any self }
    {
        self.partitions.is_some()
            || self.recovery.is_some()
            || self.is_for_run()
            || self.is_for_show()
    }

    /// Whether what was found goes together: a run over restarts is strong alone.
    ///
    /// A weak run's history begins at an origin, and no law carries an origin over an opening in mid-run.
    fn go_together(self) -> bool
        ensures { IsTrue result ↔ GoTogether (unwrap_or self.restarts 0) (unwrap_or self.recovery Strong) }
    {
        match self.recovery {
            Some(Mode::Weak) => self.restarts.unwrap_or(0) == 0,
            _ => true,
        }
    }

    /// The show of these options, where each was found that a show must have.
    fn show(self) -> Option<Show>
        ensures { MatchOption result ((show : Show) → ¬ (HasShow self show)) (HasShow self) }
    {
        Some(Show {
            seed: self.seed?,
            votes: self.votes?,
            clients: self.clients?,
        })
    }

    /// The command with this word, where these are options of it that go together, and all that it must have. Constant in time.
    ///
    /// Whether they go together is seen here and not where an option is found, since either of the two may come first.
    pub(crate) fn command(self, word: &str) -> Option<Command>
        ensures { MatchOption result ((command : Command) → ¬ (Suits word.now self command)) (Suits word.now self) }
    {
        if !self.go_together() {
            return None;
        }
        match word {
            "run" if !self.is_for_show() => Some(Command::Run),
            "recover" if !self.is_for_run() && !self.is_for_show() => Some(Command::Recover),
            "audit" if !self.is_any() => Some(Command::Audit),
            "voter" => Some(Command::Voter(self.show()?)),
            _ => None,
        }
    }
}
