// Limits of every value of a table, on both sides.
use crate::refusal;
use edetector::table::{AlternativeTable, NullTable};
use edetector::units::Weight;

#[test]
fn classes_are_2_to_16(rt: HostRuntime) {
    assert_eq!(rt; refusal(NullTable::new(&[])), Some(1));
    assert_eq!(rt; refusal(NullTable::new(&[Weight(1)])), Some(1));
    assert_eq!(rt; refusal(NullTable::new(&[Weight(1); 2])), None);
    assert_eq!(rt; refusal(NullTable::new(&[Weight(1); 16])), None);
    assert_eq!(rt; refusal(NullTable::new(&[Weight(1); 17])), Some(1));
    assert_eq!(rt; refusal(AlternativeTable::new(&[Weight(1)])), Some(1));
    assert_eq!(rt; refusal(AlternativeTable::new(&[Weight(1); 17])), Some(1));
}

#[test]
fn weights_and_totals_are_limited(rt: HostRuntime) {
    assert_eq!(rt; refusal(NullTable::new(&[Weight(0), Weight(1)])), Some(2));
    assert_eq!(rt;
        refusal(NullTable::new(&[Weight(1), Weight(65537)])),
        Some(2)
    );
    assert_eq!(rt;
        refusal(NullTable::new(&[Weight(1), Weight(65536)])),
        Some(3)
    );
    assert_eq!(rt; refusal(NullTable::new(&[Weight(1), Weight(65535)])), None);
    assert_eq!(rt;
        refusal(AlternativeTable::new(&[Weight(0), Weight(0)])),
        Some(3)
    );
    assert_eq!(rt;
        refusal(AlternativeTable::new(&[Weight(0), Weight(65536)])),
        None
    );
    assert_eq!(rt;
        refusal(AlternativeTable::new(&[Weight(0), Weight(65537)])),
        Some(2)
    );
    // a weight is judged before the total, the number of classes before a weight
    assert_eq!(rt;
        refusal(NullTable::new(&[Weight(65536), Weight(65536), Weight(0)])),
        Some(2)
    );
    assert_eq!(rt; refusal(NullTable::new(&[Weight(0)])), Some(1));
}
