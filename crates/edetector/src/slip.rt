// Slips: one is given for every stake, and must be settled or withdrawn. Neither kind can be let go, copied, or made
// outside this library, and a shown one does not tell its count: so they derive nothing.
ghost use Rattle.std.specs.Prelude.{◌≡◌};
ghost use Rattle.edetector.specs.Monitors.{shown_slip};

/// A stake whose count is not known yet.
pub struct OpenSlip {
    pub(super) tag: u32,
    pub(super) number: u32,
}

/// A stake with the count that was shown to it.
pub struct ShownSlip {
    pub(super) stake: OpenSlip,
    pub(super) count: u32,
}

impl OpenSlip {
    /// A slip can be shown one count, and is settled with it then.
    pub fn show(self, count: u32) -> ShownSlip
        ensures { result ≡ shown_slip self count }
    {
        let OpenSlip { tag, number } = self;
        ShownSlip {
            stake: OpenSlip { tag, number },
            count,
        }
    }
}
