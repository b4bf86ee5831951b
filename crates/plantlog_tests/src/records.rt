// Records read and passed over.
#[cfg(test)]
mod tests {
    use super::super::calls::*;
    use edetector::units::Weight;
    use plantlog::reader::{RECEIVE_BUFFER, Reader};
    use plantlog::record::{BettorChoice, Record, RuleChoice, Setup};
    use std::test::Fail;

    // A length byte that no body has is refused before bytes that are not there.
    #[test]
    fn fronts(rt: HostRuntime) {
        assert_eq!(rt; refusal(read(&[])), Some(45));
        assert_eq!(rt; refusal(read(&[0x00])), Some(21));
        assert_eq!(rt; refusal(read(&[0x40, 0x05])), Some(21));
        assert_eq!(rt; refusal(read(&[0x3f, 0x05])), Some(22));
        assert_eq!(rt; refusal(read(&[0x01])), Some(22));
        assert_eq!(rt; refusal(read(&[0x01, 0x00])), Some(23));
        assert_eq!(rt; refusal(read(&[0x01, 0x07])), Some(23));
    }

    #[test]
    fn rearms_and_ends(rt: HostRuntime) {
        assert_eq!(rt; read(&[0x01, 0x05]), Ok(Record::Rearm));
        assert_eq!(rt; refusal(read(&[0x02, 0x05, 0x00])), Some(24));
        assert_eq!(rt; read(&[0x02, 0x06, 0x00]), Ok(Record::End { counts: 0 }));
        assert_eq!(rt;
            read(&[0x06, 0x06, 0xff, 0xff, 0xff, 0xff, 0x0f]),
            Ok(Record::End { counts: 4294967295 })
        );
        assert_eq!(rt;
            refusal(read(&[0x06, 0x06, 0xff, 0xff, 0xff, 0xff, 0x10])),
            Some(13)
        );
        assert_eq!(rt; refusal(read(&[0x01, 0x06])), Some(11));
        assert_eq!(rt; refusal(read(&[0x03, 0x06, 0x01, 0x00])), Some(24));
    }

    // The longest body that a length byte allows is judged, a longer one is not.
    #[test]
    fn longest(rt: HostRuntime) {
        let mut log = [0u8; RECEIVE_BUFFER + 2];
        log[0] = RECEIVE_BUFFER as u8;
        log[1] = 5;
        assert_eq!(rt; refusal(read(&log)), Some(24));
        log[0] = RECEIVE_BUFFER as u8 + 1;
        assert_eq!(rt; refusal(read(&log)), Some(21));
    }

    // The longest sound record: three weights of three groups and thirteen of two. With a heavier weight its total is refused.
    #[test]
    fn longest_sound(rt: HostRuntime) -> Result<(), Fail> {
        let mut log = [
            37, 1, 16, 0x80, 0x80, 1, 0x80, 0x80, 1, 0x80, 0x80, 1, 0x80, 1, 0x80, 1, 0x80, 1,
            0x80, 1, 0x80, 1, 0x80, 1, 0x80, 1, 0x80, 1, 0x80, 1, 0x80, 1, 0x80, 1, 0x80, 1, 0x80,
            1,
        ];
        let mut weights = [Weight(128); 16];
        weights[..3].fill(Weight(16384));
        assert_eq!(rt; read(&log), Ok(table_of(&weights)?));
        log[5] = 2;
        assert_eq!(rt; refusal(read(&log)), Some(3));
        Ok(())
    }

    #[test]
    fn tables(rt: HostRuntime) -> Result<(), Fail> {
        assert_eq!(rt; refusal(read(&[0x02, 0x01, 0x01])), Some(1));
        assert_eq!(rt; refusal(read(&[0x02, 0x01, 0x11])), Some(1));
        assert_eq!(rt; refusal(read(&[0x03, 0x01, 0x02, 0x00])), Some(2));
        assert_eq!(rt;
            refusal(read(&[0x06, 0x01, 0x02, 0x81, 0x80, 0x04, 0x01])),
            Some(2)
        );
        assert_eq!(rt;
            refusal(read(&[0x06, 0x01, 0x02, 0x80, 0x80, 0x04, 0x01])),
            Some(3)
        );
        assert_eq!(rt;
            read(&[0x06, 0x01, 0x02, 0xff, 0xff, 0x03, 0x01]),
            Ok(table_of(&[Weight(65535), Weight(1)])?)
        );
        assert_eq!(rt;
            read(&[0x04, 0x01, 0x02, 0x03, 0x01]),
            Ok(table_of(&[Weight(3), Weight(1)])?)
        );
        Ok(())
    }

    // Every weight is judged before the total, and that before bytes left over.
    #[test]
    fn order_in_tables(rt: HostRuntime) {
        assert_eq!(rt; refusal(read(&[0x03, 0x01, 0x02, 0x03])), Some(11));
        assert_eq!(rt;
            refusal(read(&[0x05, 0x01, 0x02, 0x03, 0x80, 0x00])),
            Some(12)
        );
        assert_eq!(rt;
            refusal(read(&[0x08, 0x01, 0x03, 0x80, 0x80, 0x04, 0x01, 0x80, 0x00])),
            Some(12)
        );
        assert_eq!(rt;
            refusal(read(&[0x05, 0x03, 0x02, 0x00, 0x00, 0x00])),
            Some(3)
        );
        assert_eq!(rt;
            refusal(read(&[0x05, 0x01, 0x02, 0x03, 0x01, 0x00])),
            Some(24)
        );
    }

    #[test]
    fn alternatives(rt: HostRuntime) -> Result<(), Fail> {
        assert_eq!(rt;
            read(&[0x04, 0x03, 0x02, 0x00, 0x01]),
            Ok(alternative_of(&[Weight(0), Weight(1)])?)
        );
        assert_eq!(rt; refusal(read(&[0x04, 0x03, 0x02, 0x00, 0x00])), Some(3));
        assert_eq!(rt;
            refusal(read(&[0x05, 0x03, 0x02, 0x00, 0x01, 0x00])),
            Some(24)
        );
        Ok(())
    }

    #[test]
    fn setups(rt: HostRuntime) {
        let mut setup = Setup {
            threshold: 4096,
            rule: RuleChoice::ShiryaevRoberts,
            bettor: BettorChoice::Fixed,
        };
        assert_eq!(rt;
            read(&[0x05, 0x02, 0x80, 0x20, 0x01, 0x01]),
            Ok(Record::Setup(setup))
        );
        setup.threshold = 1;
        setup.bettor = BettorChoice::Adaptive;
        assert_eq!(rt;
            read(&[0x04, 0x02, 0x01, 0x01, 0x02]),
            Ok(Record::Setup(setup))
        );
        setup.rule = RuleChoice::Page;
        setup.bettor = BettorChoice::Mixture;
        assert_eq!(rt;
            read(&[0x04, 0x02, 0x01, 0x02, 0x03]),
            Ok(Record::Setup(setup))
        );
    }

    // Each field is judged whole before the next one is looked at: first that it is a number, then its limits.
    #[test]
    fn order_in_setups(rt: HostRuntime) {
        assert_eq!(rt; refusal(read(&[0x02, 0x02, 0x00])), Some(4));
        assert_eq!(rt;
            refusal(read(&[0x05, 0x02, 0x81, 0x20, 0x01, 0x01])),
            Some(4)
        );
        assert_eq!(rt; refusal(read(&[0x03, 0x02, 0x01, 0x00])), Some(25));
        assert_eq!(rt; refusal(read(&[0x03, 0x02, 0x01, 0x03])), Some(25));
        assert_eq!(rt; refusal(read(&[0x04, 0x02, 0x01, 0x80, 0x00])), Some(12));
        assert_eq!(rt; refusal(read(&[0x04, 0x02, 0x01, 0x02, 0x00])), Some(25));
        assert_eq!(rt;
            refusal(read(&[0x05, 0x02, 0x01, 0x02, 0x04, 0x00])),
            Some(25)
        );
        assert_eq!(rt;
            refusal(read(&[0x05, 0x02, 0x01, 0x02, 0x03, 0x00])),
            Some(24)
        );
    }

    #[test]
    fn counts(rt: HostRuntime) {
        assert_eq!(rt; refusal(read(&[0x03, 0x04, 0x01, 0x00])), Some(28));
        assert_eq!(rt; refusal(read(&[0x04, 0x04, 0x01, 0x00, 0x00])), Some(24));
        assert_eq!(rt; pass_over(&[0x03, 0x04, 0x01, 0x00]), Ok(()));
        assert_eq!(rt; refusal(pass_over(&[0x01, 0x05])), Some(28));
        assert_eq!(rt; refusal(pass_over(&[0x02, 0x05, 0x00])), Some(24));
        assert_eq!(rt; refusal(pass_over(&[0x02, 0x04, 0x07])), Some(11));
    }

    // The receive buffer is zero after every call, whatever its length.
    #[test]
    fn buffers(rt: HostRuntime) -> Result<(), Fail> {
        let mut short = [7u8; RECEIVE_BUFFER - 1];
        assert_eq!(rt; refusal(Reader::new(&[]).read(&mut short)), Some(27));
        assert!(rt; short.iter().all(|b| *b == 0));
        let mut long = [7u8; RECEIVE_BUFFER];
        assert_eq!(rt; refusal(Reader::new(&[]).read(&mut long)), Some(45));
        assert!(rt; long.iter().all(|b| *b == 0));
        long.fill(7);
        assert_eq!(rt;
            Reader::new(&[0x04, 0x01, 0x02, 0x03, 0x01]).read(&mut long),
            Ok(table_of(&[Weight(3), Weight(1)])?)
        );
        assert!(rt; long.iter().all(|b| *b == 0));
        long.fill(7);
        assert_eq!(rt;
            refusal(Reader::new(&[0x04, 0x01, 0x02, 0x03, 0x00]).read(&mut long)),
            Some(2)
        );
        assert!(rt; long.iter().all(|b| *b == 0));
        Ok(())
    }
}
