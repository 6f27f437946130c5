//! What holds of the catalogue of the voting show. A law is the contract of a function that does nothing.

ghost use Rattle.ss_voter.specs.VoterCatalog.{VoterHasNumbers};

/// The script names procedures and a stream by numbers. They are those that a request gets for the names `begin_show`, `add`
/// and `votes_in`.
pub fn voter_has_numbers()
    ensures { VoterHasNumbers }
{}
