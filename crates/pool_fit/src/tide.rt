// How many of some things came and went, and the most that were there at once.
ghost use Rattle.std.specs.Prelude.{◌≡◌, ◌+◌, ◌^◌, ◌<◌};
ghost use Rattle.pool_fit.specs.Tides.{after_one, no_tide};

/// How many came and went, and the most that were there at once.
#[derive(Clone, Copy, Debug, PartialEq, Eq, Hash)]
pub(crate) struct Tide {
    pub(crate) came: u64,
    pub(crate) gone: u64,
    pub(crate) peak: u64,
}

impl Tide {
    /// None came yet.
    pub(crate) fn new() -> Tide
        ensures { result ≡ no_tide }
    {
        Tide {
            came: 0,
            gone: 0,
            peak: 0,
        }
    }

    /// One thing more, which comes, or goes, or does neither.
    pub(crate) fn follow(&mut self, comes: bool, goes: bool)
        requires came { self.old.came + 1 < 2 ^ 64 }
        requires gone { self.old.gone + 1 < 2 ^ 64 }
        ensures { self.new ≡ after_one self.old comes goes }
    {
        self.came += u64::from(comes);
        self.gone += u64::from(goes);
        self.peak = self.peak.max(self.came.saturating_sub(self.gone));
    }
}
