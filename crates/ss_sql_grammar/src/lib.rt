//! Grammars as data: what their rules spell, and how they are read by one token of lookahead.
//!
//! The crate has only definitions and theorems, for crates above to cite; it has no code.
//!
//! - `specs/Grammar.antt`: a rule (`Rule`), with its trees made by functions inside it; the lists of
//!   tokens that it spells and their trees (`Spells`), which speaks of no reader; how it is read from
//!   the front (`read`), which gives the tree and the rest, or how many tokens are left where it is
//!   stuck; and whether one token decides at each choice (`decides`), which is computed.
//! - `specs/Exact.antt`: a reader is exact for what is spelled (`Exact`): it reads what is spelled and
//!   nothing else, and where it is stuck, the tokens before that position begin a text, and together
//!   with the next token they begin none.
//! - `proofs/Rules.antt`: the theorem, `rules_exact`. Where one token decides, reading is exact.
//! - `proofs/Agree.antt`: readers that agree on shorter lists agree on a rule that has a token before
//!   whatever is nested in it, `agree` and `agree_guarded`, so that what is nested can be read to the
//!   depth of its length.
//!
//! A rule that contains itself is a hole, `nested`. What fills a hole is given beside the rule,
//! so nothing here bounds how deep texts nest.
#![tactic(auto)]
