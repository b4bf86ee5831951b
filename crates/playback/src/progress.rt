// How far the counts have come.
ghost use Rattle.std.specs.Prelude.{◌≡◌, ◌+◌, ◌<◌, Some};
ghost use Rattle.playback.specs.Days.{is_after};

#[derive(Clone, Copy, Debug, PartialEq, Eq)]
pub(super) struct Progress {
    // the last count's day
    pub(super) last: Option<u32>,
    // the counts so far
    pub(super) counts: usize,
}

impl Progress {
    // Whether the day is after the last count's.
    pub(super) fn before(&self, day: u32) -> bool
        ensures { result ≡ is_after self.now.last day }
    {
        self.last.is_none_or(|last| last < day)
    }

    // A count of the day is dealt with, the last of so many records.
    pub(super) fn noted(&mut self, day: u32, records: usize)
        requires { self.old.counts < records }
        ensures { self.new ≡ record { last = Some day; counts = self.old.counts + 1 } }
    {
        self.last = Some(day);
        self.counts += 1;
    }
}
