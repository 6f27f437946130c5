//! What holds of the spelling of options. A law is the contract of a function that does nothing.

ghost use Rattle.ss_words.specs.Words.{HaveOneSpelling};

/// Words are the spelling of one list of options at most, so that what they ask for is one thing.
pub fn words_have_one_spelling()
    ensures { HaveOneSpelling }
{}
