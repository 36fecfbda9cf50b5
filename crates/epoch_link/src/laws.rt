//! A law of the ring's rule. The function does nothing: its contract is the law.
ghost use Rattle.epoch_link.specs.RingLaws.{RuleDelivers};

/// Whenever the rule of the ring holds, which is between any two steps of its ends: just one seat has the producer's part and
/// just one the consumer's, and what the one sent is what the other got, in order, and then at most as many items as the
/// ring's capacity.
pub fn rule_delivers<T>()
    ensures { RuleDelivers T }
{}
