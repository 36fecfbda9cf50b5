//! The two ends of a link, as traits.
ghost use Rattle.std.specs.Prelude.{◌≡◌};
ghost use Rattle.epoch_link.specs.Link.{EndView, IsSameEnd, HasPassed, HasRefused, OnDone, OnFull, IfFull, IfItem, OnEmpty};

/// What a push answers.
#[derive(Debug, PartialEq, Eq, Drop)]
pub enum Pushed<T> {
    /// The item is sent.
    Done,
    /// The link holds as many items as its capacity. The item comes back.
    Full(T),
}

/// What a pop answers.
#[derive(Debug, PartialEq, Eq, Drop)]
pub enum Popped<T> {
    /// The next item.
    Item(T),
    /// The link holds no item.
    Empty,
}

/// The end of a link that pushes.
pub trait Outlet<T> {
    /// What contracts see of it.
    ghost end: { Self → EndView T };

    /// Sends the item, or hands it back where the link is full.
    fn push(&mut self, item: T) -> Pushed<T>
        ensures same { IsSameEnd (end self.old) (end self.new) }
        ensures done { OnDone result (HasPassed item (end self.old) (end self.new)) }
        ensures full { OnFull result (HasRefused (end self.old) (end self.new)) }
        ensures back { IfFull result (λ back. back ≡ item) };
}

/// The end of a link that pops.
pub trait Inlet<T> {
    /// What contracts see of it.
    ghost end: { Self → EndView T };

    /// Takes the next item, if the link holds one.
    fn pop(&mut self) -> Popped<T>
        ensures same { IsSameEnd (end self.old) (end self.new) }
        ensures item { IfItem result (λ x. HasPassed x (end self.old) (end self.new)) }
        ensures empty { OnEmpty result (HasRefused (end self.old) (end self.new)) };
}
