//! What a search looks for, and what a look near a hint.

ghost use Rattle.std.specs.Prelude.{◌≡◌, Bool};

/// A position that is sought in a list: it is given by which items stand before it.
pub trait Aim<T> {
    /// Which items stand before the position.
    ghost before: { Self → T → Bool };

    /// Whether an item stands before the position. A search asks this once for each halving of the list.
    fn is_before(&self, item: &T) -> bool
        ensures { result ≡ before self.now item.now };
}

/// Which item is looked for, without a search: an item tells by itself whether it is wanted.
pub trait Wanted<T> {
    /// Which items are wanted.
    ghost wants: { Self → T → Bool };

    /// Whether an item is wanted. A look near a hint asks this once for each item.
    fn is_wanted(&self, item: &T) -> bool
        ensures { result ≡ wants self.now item.now };
}
