//! A push and a pop where there may be no link.

ghost use Rattle.std.specs.Prelude.{◌≡◌, IfSome, IfNone, true, false, IsSome};
ghost use Rattle.pass_parts.specs.Ends.{through, with, IsEndFrom, IsRefused};

use epoch_link::{Inlet, Outlet, Popped, Pushed};
use flow_model::Message;

/// Sends a message, where there is a link. False where the link was full. It takes no memory.
pub fn push_message<O: Outlet<Message>>(outlet: &mut Option<O>, message: Message) -> bool
    ensures later { IsEndFrom O.end outlet.new outlet.old }
    ensures sent { result ≡ true → through O.end outlet.new ≡ with message (through O.end outlet.old) }
    ensures full { result ≡ false → through O.end outlet.new ≡ through O.end outlet.old }
    ensures refused { result ≡ false → IsRefused O.end outlet.old outlet.new }
{
    match outlet {
        None => true,
        Some(outlet) => match outlet.push(message) {
            Pushed::Done => true,
            Pushed::Full(_) => false,
        },
    }
}

/// The next message of a link, unless it is empty. It takes no memory.
pub fn pop_message<I: Inlet<Message>>(inlet: &mut Option<I>) -> Option<Message>
    requires { IsSome inlet.old }
    ensures later { IsEndFrom I.end inlet.new inlet.old }
    ensures some { IfSome result (λ m. through I.end inlet.new ≡ with m (through I.end inlet.old)) }
    ensures none { IfNone result (through I.end inlet.new ≡ through I.end inlet.old) }
    ensures refused { IfNone result (IsRefused I.end inlet.old inlet.new) }
{
    match inlet {
        None => None,
        Some(inlet) => match inlet.pop() {
            Popped::Item(message) => Some(message),
            Popped::Empty => None,
        },
    }
}
