// What is proved of single calls: making, put, drop and get.
ghost use Rattle.seating.specs.Fronts.{PutFront, DropFront, GetFront};
ghost use Rattle.seating.specs.Maps.{PutMapLaw, DropMapLaw, GetMapLaw};
ghost use Rattle.seating.specs.Theorems.{MakeSound, PutSound, DropSound, PutMoves, DropMoves};

// A table made new is sound, and the bank behind it stays as it was.
pub fn make_sound()
    ensures { MakeSound }
{}

// A put keeps the invariant, whatever it answers.
pub fn put_sound()
    ensures { PutSound }
{}

// So does a drop.
pub fn drop_sound()
    ensures { DropSound }
{}

// The moves that a put answers are those that the slots show.
pub fn put_moves()
    ensures { PutMoves }
{}

// So are those that a drop answers.
pub fn drop_moves()
    ensures { DropMoves }
{}

// A put changes the map read off the slots as a map is changed.
pub fn put_map_law()
    ensures { PutMapLaw }
{}

// So does a drop.
pub fn drop_map_law()
    ensures { DropMapLaw }
{}

// A lookup answers as that map does.
pub fn get_map_law()
    ensures { GetMapLaw }
{}

// What a put does to a bank it does to the table's own slots, and to no other.
pub fn put_front()
    ensures { PutFront }
{}

// So does a drop.
pub fn drop_front()
    ensures { DropFront }
{}

// A lookup looks at no other slots either.
pub fn get_front()
    ensures { GetFront }
{}
