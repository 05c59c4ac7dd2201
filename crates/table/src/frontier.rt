// The slots that a search has come to, as a queue in lent words.
mod marks;
mod ranges;
mod rows;
mod walk;

use std::marker::Model;

// Three rows, as long as the table has slots: whether a slot was seen, the slot of each entry, and the
// link of each entry, 0 for a root and else one more than the entry that it was reached from. The rows
// are words of 32 bits that the caller lends, by a rule of the project, so a mark and a link are numbers.
#[derive(Drop)]
pub(crate) struct Frontier<'a> {
    seen: &'a mut [u32],
    at: &'a mut [u32],
    from: &'a mut [u32],
    tail: usize,
}

// It is seen as a queue, which is always tidy.
impl<'a> Model for Frontier<'a> {
    ghost use Rattle.search.specs.Queues.{Queue, Tidy, queue};

    ghost Value = { Queue };

    ghost view = { λ f. queue f.seen.now f.at.now f.from.now f.tail };

    ghost invariant = { λ f. Tidy (queue f.seen.now f.at.now f.from.now f.tail) };
}
