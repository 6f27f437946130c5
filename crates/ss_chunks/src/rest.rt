//! The items of a list from a position on, and a hint where the next of them stands.

ghost use Rattle.std.specs.Prelude.{◌≡◌, [], ◌∷◌, IfSome, IfNone, drop, slice_get, option_copied};
ghost use Rattle.ss_chunks.specs.Chunks.{items_in, rest_items};

/// Where an item may stand: in this chunk, at this position. Nothing is known of a hint until the item there is looked at,
/// since the list may have changed.
#[derive(Clone, Copy, Debug, PartialEq, Eq, Drop)]
pub struct Hint {
    pub chunk: usize,
    pub position: usize,
}

/// The items of a list from a position on: those of one chunk, and the chunks behind it. They are lent, so the list can't
/// change while they are read.
#[derive(Drop)]
pub struct Rest<'a, T> {
    pub here: &'a [T],
    pub others: &'a [Vec<T>],
    /// Where the next item may stand.
    pub hint: Hint,
}

/// The first item of some chunks, and the items behind it. Empty chunks are passed over, since a `Rest` doesn't say that
/// there are none.
fn first_of<'a, T>(chunks: &'a [Vec<T>], at: usize) -> Option<(&'a T, Rest<'a, T>)>
    ensures some { IfSome result (λ r. items_in chunks.now ≡ r.0.now ∷ rest_items r.1) }
    ensures none { IfNone result (items_in chunks.now ≡ []) }
{
    match chunks.split_first() {
        None => None,
        Some((chunk, others)) => match chunk.as_slice().split_first() {
            // No clause speaks of a hint's numbers, so they may wrap.
            None => first_of(others, at.wrapping_add(1)),
            Some((item, here)) => {
                let hint = Hint {
                    chunk: at,
                    position: 1,
                };
                Some((item, Rest { here, others, hint }))
            }
        },
    }
}

impl<'a, T> Rest<'a, T> {
    /// Takes the next item off the front, and answers it; None where there is none. Constant.
    pub fn next(&mut self) -> Option<&'a T>
        ensures next { option_copied result ≡ slice_get (rest_items self.old) 0 }
        ensures rest { rest_items self.new ≡ drop 1 (rest_items self.old) }
    {
        match self.here.split_first() {
            Some((item, here)) => {
                self.here = here;
                self.hint.position = self.hint.position.wrapping_add(1);
                Some(item)
            }
            None => match first_of(self.others, self.hint.chunk.wrapping_add(1)) {
                None => None,
                Some((item, rest)) => {
                    *self = rest;
                    Some(item)
                }
            },
        }
    }
}
