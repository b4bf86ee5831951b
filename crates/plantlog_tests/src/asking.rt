// What asking tells of each kind of record, and when a reader is over.
#[cfg(test)]
mod tests {
    use super::super::calls::*;
    use plantlog::reader::{RECEIVE_BUFFER, Reader};
    use plantlog::record::{Announced, CountHead, Record, RecordKind};

    #[test]
    fn announced(rt: HostRuntime) {
        assert_eq!(rt;
            ask(&[0x04, 0x01, 0x02, 0x03, 0x01]),
            Ok(Some(Announced::Other(RecordKind::Table)))
        );
        assert_eq!(rt;
            ask(&[0x04, 0x02, 0x04, 0x01, 0x01]),
            Ok(Some(Announced::Other(RecordKind::Setup)))
        );
        assert_eq!(rt;
            ask(&[0x04, 0x03, 0x02, 0x01, 0x01]),
            Ok(Some(Announced::Other(RecordKind::Alternative)))
        );
        assert_eq!(rt;
            ask(&[0x03, 0x04, 0x07, 0x00]),
            Ok(Some(Announced::Count(CountHead { day: 7 })))
        );
        assert_eq!(rt;
            ask(&[0x01, 0x05]),
            Ok(Some(Announced::Other(RecordKind::Rearm)))
        );
        assert_eq!(rt;
            ask(&[0x02, 0x06, 0x01]),
            Ok(Some(Announced::Other(RecordKind::End)))
        );
        assert_eq!(rt; ask(&[]), Ok(None));
    }

    // A record that is asked for is judged whole.
    #[test]
    fn refused(rt: HostRuntime) {
        assert_eq!(rt; refusal(ask(&[0x00])), Some(21));
        assert_eq!(rt; refusal(ask(&[0x02, 0x04])), Some(22));
        assert_eq!(rt; refusal(ask(&[0x01, 0x07])), Some(23));
        assert_eq!(rt; refusal(ask(&[0x02, 0x04, 0x07])), Some(11));
        assert_eq!(rt; refusal(ask(&[0x03, 0x06, 0x01, 0x00])), Some(24));
    }

    // Each kind has the first byte of its bodies.
    #[test]
    fn kind_bytes(rt: HostRuntime) {
        assert_eq!(rt; u8::from(RecordKind::Table), 1);
        assert_eq!(rt; u8::from(RecordKind::Setup), 2);
        assert_eq!(rt; u8::from(RecordKind::Alternative), 3);
        assert_eq!(rt; u8::from(RecordKind::Count), 4);
        assert_eq!(rt; u8::from(RecordKind::Rearm), 5);
        assert_eq!(rt; u8::from(RecordKind::End), 6);
        assert_eq!(rt; RecordKind::from(Record::Rearm), RecordKind::Rearm);
        assert_eq!(rt;
            RecordKind::from(Record::End { counts: 5 }),
            RecordKind::End
        );
    }

    // A reader is over once no byte is left, and neither a call that is refused nor asking brings it on.
    #[test]
    fn over(rt: HostRuntime) {
        let mut buf = [7u8; RECEIVE_BUFFER];
        assert!(rt; Reader::new(&[]).is_over());
        let mut cut = Reader::new(&[0x02]);
        assert_eq!(rt; refusal(cut.read(&mut buf)), Some(22));
        assert!(rt; !cut.is_over());
        let mut whole = Reader::new(&[0x01, 0x05, 0x03, 0x04, 0x07, 0x00]);
        assert_eq!(rt; whole.read(&mut buf), Ok(Record::Rearm));
        assert!(rt; whole.ask(&mut buf).is_ok());
        assert!(rt; !whole.is_over());
        assert_eq!(rt; whole.pass_over(&mut buf), Ok(()));
        assert!(rt; whole.is_over());
    }
}
