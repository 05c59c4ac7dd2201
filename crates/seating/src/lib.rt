// The meaning of a cuckoo table with a stash. It holds no running code: its definitions stand in
// specs/, and each theorem about them is the contract of a function here.
#![tactic(auto)]

pub mod runs;
pub mod seats;
pub mod steps;

ghost use Rattle.seating.specs.Laws.{CandidatesAreBuckets, AllowedInside};

// The candidate slots of a key are exactly the slots of the buckets that it chooses.
pub fn candidates_are_buckets()
    ensures { CandidatesAreBuckets }
{}

// A key may take slots of the table only, and its candidates are apart from the stash.
pub fn allowed_inside()
    ensures { AllowedInside }
{}
