// A lent scratch that is left clean on every way out.
ghost use Rattle.std.specs.Prelude.{◌≡◌, ◌≤◌, length};
ghost use Rattle.split.specs.Splitting.{wiped};

// Holds lent codes, of which it zeroes the first `used` at its end.
pub(crate) struct Scratch<'a> {
    pub(crate) codes: &'a mut [u16],
    pub(crate) used: usize,
}

impl Drop for Scratch<'_> {
    fn drop(self)
        requires { self.used ≤ length self.codes.now }
        ensures { self.exit.0.now ≡ wiped self.entry.used self.entry.codes.now }
    {
        let Scratch { codes, used } = self;
        codes[..used].fill(0);
    }
}
