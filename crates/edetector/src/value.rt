// Why a value handed over is refused.
ghost use Rattle.std.specs.Prelude.{◌≡◌};
ghost use Rattle.edetector.specs.Tables.{value_number};

/// Each by its number.
#[derive(Clone, Copy, Debug, PartialEq, Eq)]
pub enum ValueFault {
    /// the number of classes is not 2 to 16
    Classes = 1,
    /// a weight is beyond its limits
    Weight = 2,
    /// the total of the weights is beyond its limits
    Total = 3,
    /// the threshold is not 1 to 4,096
    Threshold = 4,
    /// the null tables of a mixture differ
    NullTables = 6,
    /// the alternative has not as many classes as the null table
    Alternative = 8,
}

impl From<ValueFault> for u8 {
    ghost from_gives = { λ fault n. n ≡ value_number fault };

    fn from(fault: ValueFault) -> u8 {
        fault as u8
    }
}
