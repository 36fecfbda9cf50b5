//! A clock that answers a list.

ghost use Rattle.std.specs.Prelude.{◌≡◌, ◌<◌, ◌+◌, ◌-◌, ◌^◌, ◌∷◌, [], Some, false, IfOk};
ghost use Rattle.outer_io.specs.Tells.{Tells, Gains};
ghost use Rattle.memory_outside.specs.ListClock.{answer_of, told_answers};

use outer_io::Clock;
use std::alloc::{AllocError, Global};
use std::marker::Model;

/// A clock in memory: it answers a list, and then the list's last item again and again, or 0 where
/// the list is empty. It tells its first 2^64 - 1 answers.
#[derive(Drop)]
pub struct ListClock {
    list: Vec<u64>,
    answered: u64,
    is_lost: bool,
}

impl Model for ListClock {
    ghost use Rattle.memory_outside.specs.ListClock.{Answering};

    ghost Value = { Answering };

    ghost view = { λ c. record { list = c.list.items; answered = c.answered; is_lost = c.is_lost } };
}

impl ListClock {
    /// A clock that answers this list. It fails where there is no memory to copy the list.
    #[tactic(auto, using(crate::proofs::ClockLemmas::answers_none))]
    pub fn new(alloc: Global, list: &[u64]) -> Result<ListClock, AllocError>
        ensures clock { IfOk result (λ clock. clock ≡ record { list = list.now; answered = 0; is_lost = false }) }
        ensures told { IfOk result (λ clock. told_answers clock ≡ Some []) }
    {
        Ok(ListClock {
            list: list.to_vec(alloc)?,
            answered: 0,
            is_lost: false,
        })
    }
}

impl Clock for ListClock {
    ghost answers = { told_answers };

    #[tactic(auto, using(crate::proofs::ClockLemmas::answers_next))]
    fn now(&mut self) -> u64
        ensures told { Tells (told_answers self.old) (told_answers self.new) (Gains (result ∷ [])) }
        ensures answer { result ≡ answer_of self.old.list self.old.answered }
        ensures list { self.new.list ≡ self.old.list }
        ensures next { self.old.answered < 2 ^ 64 - 1
            → self.new ≡ record self.old { answered = self.old.answered + 1 } }
    {
        let answer = answer_at(&self.list, self.answered);
        if self.answered == u64::MAX {
            self.is_lost = true;
        } else {
            self.answered += 1;
        }
        answer
    }
}

// The answer of this number.
fn answer_at(list: &[u64], number: u64) -> u64
    ensures { result ≡ answer_of list.now number }
{
    if number < list.len() as u64 {
        list[number as usize]
    } else if let Some(last) = list.last() {
        *last
    } else {
        0
    }
}
