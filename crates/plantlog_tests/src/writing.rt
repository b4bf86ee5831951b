// Records refused or accepted by the writer.
#[cfg(test)]
mod tests {
    use super::super::calls::*;
    use edetector::units::Weight;
    use plantlog::fault::RecordFault;
    use plantlog::writer::{write_alternative, write_end, write_setup, write_table};

    fn setup(threshold: u32, rule: u32, bettor: u32) -> Result<usize, RecordFault> {
        write_setup(threshold, rule, bettor, &mut [7u8; 6])
    }

    fn end(counts: u32) -> Result<usize, RecordFault> {
        write_end(counts, &mut [7u8; 7])
    }

    #[test]
    fn setups(rt: HostRuntime) {
        assert_eq!(rt; numbered(setup(0, 0, 0)), Err(4));
        assert_eq!(rt; numbered(setup(4097, 1, 1)), Err(4));
        assert_eq!(rt; setup(4096, 1, 1), Ok(6));
        assert_eq!(rt; numbered(setup(1, 0, 1)), Err(25));
        assert_eq!(rt; numbered(setup(1, 3, 1)), Err(25));
        assert_eq!(rt; numbered(setup(1, 2, 0)), Err(25));
        assert_eq!(rt; numbered(setup(1, 2, 4)), Err(25));
        assert_eq!(rt; setup(1, 2, 3), Ok(5));
    }

    #[test]
    fn tables(rt: HostRuntime) {
        let mut out = [7u8; 50];
        assert_eq!(rt; numbered(write_table(&[Weight(1)], &mut out)), Err(1));
        assert_eq!(rt; numbered(write_table(&[Weight(1); 17], &mut out)), Err(1));
        assert_eq!(rt;
            numbered(write_table(&[Weight(1), Weight(0)], &mut out)),
            Err(2)
        );
        assert_eq!(rt;
            numbered(write_table(&[Weight(1), Weight(65536)], &mut out)),
            Err(3)
        );
        assert_eq!(rt;
            numbered(write_alternative(&[Weight(0), Weight(0)], &mut out)),
            Err(3)
        );
        assert!(rt; out == [7; 50]);
        assert_eq!(rt;
            numbered(write_alternative(&[Weight(0), Weight(65536)], &mut out)),
            Ok(7)
        );
        assert_eq!(rt;
            numbered(write_table(&[Weight(1), Weight(65535)], &mut out)),
            Ok(7)
        );
        assert_eq!(rt;
            numbered(write_table(&[Weight(4096); 16], &mut out)),
            Ok(35)
        );
    }

    // The buffer is judged last, and the byte after a record stays.
    #[test]
    fn buffers(rt: HostRuntime) {
        let mut out = [7u8; 4];
        assert_eq!(rt; numbered(write_setup(0, 1, 1, &mut out)), Err(4));
        assert_eq!(rt; numbered(write_setup(1, 1, 1, &mut out)), Err(26));
        assert!(rt; out == [7, 7, 7, 7]);
        assert_eq!(rt; numbered(write_end(3, &mut out)), Ok(3));
        assert!(rt; out == [2, 6, 3, 7]);
    }

    #[test]
    fn lengths(rt: HostRuntime) {
        assert_eq!(rt; end(0), Ok(3));
        assert_eq!(rt; end(127), Ok(3));
        assert_eq!(rt; end(128), Ok(4));
        assert_eq!(rt; end(16383), Ok(4));
        assert_eq!(rt; end(16384), Ok(5));
        assert_eq!(rt; end(2097151), Ok(5));
        assert_eq!(rt; end(2097152), Ok(6));
        assert_eq!(rt; end(268435455), Ok(6));
        assert_eq!(rt; end(268435456), Ok(7));
        assert_eq!(rt; end(4294967295), Ok(7));
    }
}
