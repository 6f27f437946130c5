//! Lists with commas between their items.

ghost use Rattle.std.specs.Prelude.{ℕ, List, Result};
ghost use Rattle.ss_sql_parse.specs.declared.lexeme.Lexeme.{Lexeme};
ghost use Rattle.ss_sql_parse.specs.Gives.{Gives};
ghost use Rattle.ss_sql_parse.specs.Lists.{list_read};

use crate::lexeme::{Lexemes, Terminal};
use crate::reading::{Read, begins, token};
use ss_value::Seq;
use std::alloc::Global;

/// A tree that is read from the front of a list of tokens.
pub trait Element: Drop {
    /// The reader of the grammar that gives such a tree.
    ghost reads: { List Lexeme → Result (Self × List Lexeme) ℕ };

    /// Reads one tree from the front.
    fn read<'t>(alloc: Global, tokens: Lexemes<'t>) -> Read<'t, Self>
        ensures read { Gives (λ x. (x.0, x.1.now)) result (reads tokens.now) };
}

/// Reads an item from the front, and the others behind commas. Linear in their tokens and the bytes of their leaves.
pub fn list_of<'t, E: Element>(alloc: Global, tokens: Lexemes<'t>) -> Read<'t, Seq<E>>
    ensures read { Gives (λ x. (x.0, x.1.now)) result (list_read E.reads tokens.now) }
{
    let mut items = Seq::new(alloc);
    let (first, mut rest) = E::read(alloc, tokens)?;
    items.push(first)?;
    // Each turn reads a comma at least, so there are no more turns than tokens.
    for _ in 0..rest.len() {
        if !begins(rest, Terminal::Comma) {
            return Ok((items, rest));
        }
        let (_, after) = token(rest, Terminal::Comma)?;
        let (item, after) = E::read(alloc, after)?;
        items.push(item)?;
        rest = after;
    }
    Ok((items, rest))
}
