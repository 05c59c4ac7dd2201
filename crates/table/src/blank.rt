// The lent work area, handed back blank.
ghost use Rattle.std.specs.Prelude.{◌≡◌, length, replicate};

// A guard over the lent words, which zeroes them at its end.
pub(crate) struct Blank<'a>(pub(crate) &'a mut [u32]);

impl Drop for Blank<'_> {
    fn drop(self)
        ensures { self.exit.0.now ≡ replicate (length self.entry.0.now) 0 }
    {
        self.0.fill(0);
        let Blank(_) = self;
    }
}
