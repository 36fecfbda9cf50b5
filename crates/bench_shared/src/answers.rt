//! What the ends of a link answer, call by call.
ghost use Rattle.std.specs.Prelude.{◌≡◌};

use epoch_link::{Capacity, Inlet, ListLink, Outlet, close, ring};
use std::alloc::{AllocError, Global};
use std::io;

/// A call of a link.
enum Call {
    Push(u32),
    Pop,
}

/// Calls of a new link of capacity 2, after which it holds 9.
static CALLS: [Call; 7] = [
    Call::Pop,
    Call::Push(7),
    Call::Push(8),
    Call::Push(9),
    Call::Pop,
    Call::Push(9),
    Call::Pop,
];

fn push<O: Outlet<u32>>(rt: &impl Print, outlet: &mut O, item: u32) -> io::Result<()>
    ensures { (O.end outlet.new).link ≡ (O.end outlet.old).link }
{
    let answer = outlet.push(item);
    println!(rt; "push {item}: {answer:?}")
}

fn pop<I: Inlet<u32>>(rt: &impl Print, inlet: &mut I) -> io::Result<()>
    ensures { (I.end inlet.new).link ≡ (I.end inlet.old).link }
{
    let answer = inlet.pop();
    println!(rt; "pop: {answer:?}")
}

/// The answers of a link within one thread.
pub fn of_list_link(rt: &impl Print, alloc: Global) -> io::Result<()> {
    let Ok(mut link) = ListLink::new(alloc, Capacity::of(2)) else {
        return Err(AllocError.into());
    };
    for call in &CALLS {
        match call {
            Call::Push(item) => push(rt, &mut link, *item)?,
            Call::Pop => pop(rt, &mut link)?,
        }
    }
    Ok(())
}

/// The answers of a ring, and what is left in it when its ends are closed.
pub fn of_ring(rt: &impl Print, alloc: Global) -> io::Result<()> {
    let Ok((mut producer, mut consumer)) = ring(alloc, Capacity::of(2)) else {
        return Err(AllocError.into());
    };
    for call in &CALLS {
        match call {
            Call::Push(item) => push(rt, &mut producer, *item)?,
            Call::Pop => pop(rt, &mut consumer)?,
        }
    }
    let mut left = close(producer, consumer);
    for _ in 0..2 {
        let next = left.next();
        println!(rt; "left: {next:?}")?;
    }
    Ok(())
}
