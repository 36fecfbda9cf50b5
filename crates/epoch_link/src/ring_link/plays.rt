//! What each step on the table tells. These types are for the proofs alone.
use crate::ring_link::view::View;
use atomic_table::{Join, Play, Split};

// The producer's steps.
pub struct LoadHead;

impl<T> Play<Option<T>, View<T>> for LoadHead {
    ghost use Rattle.epoch_link.specs.Ring.{saw_head};

    ghost then = { saw_head };
}

pub struct StoreTail;

impl<T> Play<Option<T>, View<T>> for StoreTail {
    ghost use Rattle.epoch_link.specs.Ring.{sent_one};

    ghost then = { λ st m r n. sent_one m n };
}

// The consumer's steps.
pub struct LoadTail;

impl<T> Play<Option<T>, View<T>> for LoadTail {
    ghost use Rattle.epoch_link.specs.Ring.{saw_tail};

    ghost then = { saw_tail };
}

pub struct StoreHead;

impl<T> Play<Option<T>, View<T>> for StoreHead {
    ghost use Rattle.epoch_link.specs.Ring.{got_one};

    ghost then = { λ st m r n. got_one m n };
}

// How the two parts come apart and together again.
pub struct Parts;

impl<T> Split<View<T>> for Parts {
    ghost use Rattle.epoch_link.specs.Ring.{producers_part, consumers_part};

    ghost left = { producers_part };

    ghost right = { consumers_part };
}

impl<T> Join<View<T>> for Parts {
    ghost use Rattle.epoch_link.specs.Ring.{joined, spent_view};

    ghost both = { joined };

    ghost spent = { spent_view };
}
