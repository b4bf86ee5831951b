// Numbers of one to five groups at their edges.

#[cfg(test)]
mod tests {
    use super::super::calls::numbered;
    use plantlog::number::{NumberFault, read_number};

    // The number in front, and how many bytes are behind it.
    fn number_at(bytes: &[u8]) -> Result<(u32, usize), NumberFault> {
        read_number(bytes).map(|(n, behind)| (n, behind.len()))
    }

    #[test]
    fn edges(rt: HostRuntime) {
        assert_eq!(rt; number_at(&[0x00]), Ok((0, 0)));
        assert_eq!(rt; number_at(&[0x7f]), Ok((127, 0)));
        assert_eq!(rt; number_at(&[0x80, 0x01]), Ok((128, 0)));
        assert_eq!(rt; number_at(&[0xac, 0x02, 0x05, 0x80]), Ok((300, 2)));
        assert_eq!(rt; number_at(&[0xff, 0x7f]), Ok((16383, 0)));
        assert_eq!(rt; number_at(&[0x80, 0x80, 0x01]), Ok((16384, 0)));
        assert_eq!(rt; number_at(&[0xff, 0xff, 0x7f]), Ok((2097151, 0)));
        assert_eq!(rt; number_at(&[0x80, 0x80, 0x80, 0x01]), Ok((2097152, 0)));
        assert_eq!(rt; number_at(&[0xff, 0xff, 0xff, 0x7f]), Ok((268435455, 0)));
        assert_eq!(rt;
            number_at(&[0x80, 0x80, 0x80, 0x80, 0x01]),
            Ok((268435456, 0))
        );
        assert_eq!(rt;
            number_at(&[0xff, 0xff, 0xff, 0xff, 0x0f]),
            Ok((4294967295, 0))
        );
    }

    #[test]
    fn refused(rt: HostRuntime) {
        assert_eq!(rt;
            numbered(number_at(&[0xff, 0xff, 0xff, 0xff, 0x10])),
            Err(13)
        );
        assert_eq!(rt;
            numbered(number_at(&[0x80, 0x80, 0x80, 0x80, 0x80, 0x00])),
            Err(13)
        );
        assert_eq!(rt; numbered(number_at(&[])), Err(11));
        assert_eq!(rt; numbered(number_at(&[0x80])), Err(11));
        assert_eq!(rt; numbered(number_at(&[0x80, 0x80, 0x80, 0x80])), Err(11));
        assert_eq!(rt; numbered(number_at(&[0x80, 0x00])), Err(12));
        assert_eq!(rt;
            numbered(number_at(&[0x80, 0x80, 0x80, 0x80, 0x00])),
            Err(12)
        );
    }
}
