// What is proved of assignments, blocking sets and paths, whatever calls led to the slots.
ghost use Rattle.seating.specs.Theorems.{Pigeonhole, BlockingLeast, StuckBlocked, RefusalHonest, BlameExact, StashLeast, CarriedOut};

// Keys that an assignment seats in listed slots are no more than these slots.
pub fn pigeonhole()
    ensures { Pigeonhole }
{}

// The blocking set, as computed, is the least set with the candidates of the key, the stash and the
// candidates of each key in it, in ascending order.
pub fn blocking_least()
    ensures { BlockingLeast }
{}

// A key with no path, beside a full stash, has a full blocking set.
pub fn stuck_blocked()
    ensures { StuckBlocked }
{}

// Where the blocking set is full no assignment exists.
pub fn refusal_honest()
    ensures { RefusalHonest }
{}

// Each key of a full blocking set, left out alone, lets all the others be seated, and no other key does.
pub fn blame_exact()
    ensures { BlameExact }
{}

// No assignment of the held keys has fewer of them in the stash than sound slots have.
pub fn stash_least()
    ensures { StashLeast }
{}

// A path carried out keeps all keys and adds the new one.
pub fn carried_out()
    ensures { CarriedOut }
{}
