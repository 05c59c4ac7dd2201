// An empty frontier, its entries, and one slot more.
ghost use Rattle.std.specs.Prelude.{◌≡◌, ◌*◌, ◌^◌, ◌<◌, ◌≤◌, length, Decides};
ghost use Rattle.search.specs.Queues.{Tidy, Fresh, Offered, slot, link, link_to};

use crate::frontier::Frontier;

// The link to an entry, in a word; 0 for none.
// An invariant says that it fits, as a slot does below: `try_from` would add a refusal that cannot come.
fn link_to(from: Option<usize>) -> u32
    requires { link_to from < 2 ^ 32 }
    ensures { result ≡ link_to from }
{
    from.map_or(0, |entry| entry as u32 + 1)
}

impl<'a> Frontier<'a> {
    // An empty frontier of n slots in the first words.
    pub(crate) fn new(words: &'a mut [u32], n: usize) -> Frontier<'a>
        requires long { 3 * n ≤ length words.old }
        requires few { n < 2 ^ 32 }
        ensures fresh { Fresh result }
        ensures rows { length result.seen ≡ n }
    {
        let (seen, rest) = words.split_at_mut(n);
        let (at, rest) = rest.split_at_mut(n);
        let (from, _) = rest.split_at_mut(n);
        seen.fill(0);
        Frontier {
            seen,
            at,
            from,
            tail: 0,
        }
    }

    // How many entries there are.
    #[tactic(auto, using(search::proofs::Queuing::entries_fit))]
    pub(crate) fn len(&self) -> usize
        ensures len { result ≡ self.now.tail }
        ensures few { self.now.tail < 2 ^ 32 }
        ensures tidy { Tidy self.now }
    {
        self.tail
    }

    // The slot of an entry; each call names another, so that there is one is asked. By `as`, since no `From` widens a
    // `u32` to a `usize`.
    #[tactic(auto, using(search::proofs::Queuing::entries_fit))]
    pub(crate) fn slot(&self, entry: usize) -> usize
        requires { entry < self.now.tail }
        ensures slot { result ≡ slot self.now entry }
        ensures tidy { Tidy self.now }
    {
        let row = &*self.at;
        row[entry] as usize
    }

    // The entry that an entry was reached from; a root has none. By `as`, as above.
    #[tactic(auto, using(search::proofs::Queuing::entries_fit))]
    pub(crate) fn before(&self, entry: usize) -> Option<usize>
        requires { entry < self.now.tail }
        ensures { link self.now entry ≡ link_to result }
    {
        let row = &*self.from;
        (row[entry] as usize).checked_sub(1)
    }

    // Appends slot i as reached from an entry, or as a root, if it was not seen; whether it was appended.
    // Each call names another entry, so that there is one is asked, and can be no invariant.
    #[tactic(auto, using(search::proofs::Queuing::entries_fit, search::proofs::Queuing::room_left))]
    pub(crate) fn push(&mut self, i: usize, from: Option<usize>) -> bool
        requires low { i < length self.old.seen }
        requires back { link_to from ≤ self.old.tail }
        ensures offered { Offered (link_to from) i self.old self.new }
        ensures new { Decides result (self.old.tail < self.new.tail) }
    {
        let tail = self.tail;
        let link = link_to(from);
        if self.seen[i] != 0 {
            return false;
        }
        self.seen[i] = 1;
        self.at[tail] = i as u32;
        self.from[tail] = link;
        self.tail = tail + 1;
        true
    }
}
