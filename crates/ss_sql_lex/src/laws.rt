//! Laws of tokens, each the contract of a function that does nothing.

ghost use Rattle.ss_sql_lex.specs.Laws.{SpellsOneList, SpellsOrFails, FailsOnce, FaultsHaveCauses, QuotesAreTaken};

/// A text spells one list of tokens at most, or it has a fault, and one first fault at most.
pub fn a_text_has_one_answer()
    ensures tokens { SpellsOneList }
    ensures either { SpellsOrFails }
    ensures fault { FailsOnce }
{}

/// A value in quotes is read back, so a Text has one value.
pub fn quotes_are_taken()
    ensures { QuotesAreTaken }
{}

/// A fault has its cause at its offset: a byte that begins no token, the 33rd character of a name, a
/// number that is too great or joined to a letter, a text that is not closed or too long.
pub fn faults_have_causes()
    ensures { FaultsHaveCauses }
{}
