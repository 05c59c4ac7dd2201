// The buckets that a key chooses: one to three, in order, and the same one may come again.
ghost use Rattle.std.specs.Prelude.{◌≡◌, ◌≤◌, length, slice_index};
ghost use Rattle.places.specs.Choices.{listed};

// Arrays of one, two and three, so that no number of choices needs a test, and no memory of its own.
#[derive(Clone, Copy, Debug, PartialEq, Eq)]
pub enum Choices {
    One([usize; 1]),
    Two([usize; 2]),
    Three([usize; 3]),
}

impl Choices {
    // The chosen buckets, in order.
    pub fn as_slice(&self) -> &[usize]
        ensures value { result.now ≡ listed self.now }
        ensures few { length (listed self.now) ≤ 3 }
    {
        match self {
            Choices::One(all) => all,
            Choices::Two(all) => all,
            Choices::Three(all) => all,
        }
    }

    // How many choices there are.
    pub fn len(&self) -> usize
        ensures { result ≡ length (listed self.now) }
    {
        self.as_slice().len()
    }

    // Choice j, counted from 0, and 0 past the last.
    pub fn at(&self, j: usize) -> usize
        ensures { result ≡ slice_index (listed self.now) j }
    {
        self.as_slice().get(j).copied().unwrap_or(0)
    }
}
