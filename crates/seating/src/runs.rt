// What is proved of every list of calls.
ghost use Rattle.seating.specs.Runs.{RunLaw, RunLawFrom, OutcomeLaw, PutExists, DropExists, RunExists, HeldMap};
ghost use Rattle.seating.specs.Worked.{WorkedStands};

// The law of a table made new, after every list of puts and drops, refused ones included.
pub fn run_law()
    ensures { RunLaw }
{}

// The same from any sound beginning.
pub fn run_law_from()
    ensures { RunLawFrom }
{}

// The same told of a list of calls and one put behind it.
pub fn outcome_law()
    ensures { OutcomeLaw }
{}

// Every put does something that the law speaks of.
pub fn put_exists()
    ensures { PutExists }
{}

// So does every drop.
pub fn drop_exists()
    ensures { DropExists }
{}

// Every list of calls has a run.
pub fn run_exists()
    ensures { RunExists }
{}

// What a list of calls makes held is a finite map.
pub fn held_map()
    ensures { HeldMap }
{}

// A run that ends in a refusal, with its blocking set, the keys named, and for each of them an
// assignment of all others.
pub fn worked_stands()
    ensures { WorkedStands }
{}
