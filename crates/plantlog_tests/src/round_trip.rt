// A log written record by record and read back.
use edetector::units::Weight;
use plantlog::fault::RecordFault;
use plantlog::reader::{RECEIVE_BUFFER, Reader};
use plantlog::record::Record;
use plantlog::writer::{
    write_alternative, write_count, write_end, write_rearm, write_setup, write_table,
};

// Writes a record of each kind, one after the other, and gives their length.
fn write_log(log: &mut [u8]) -> Result<usize, RecordFault> {
    let table = write_table(&[Weight(3), Weight(1)], log)?;
    let setup = table + write_setup(4, 2, 3, &mut log[table..])?;
    let alternative = setup + write_alternative(&[Weight(0), Weight(300)], &mut log[setup..])?;
    let count = alternative + write_count(300, 0, &mut log[alternative..])?;
    let rearm = count + write_rearm(&mut log[count..])?;
    let end = rearm + write_end(1, &mut log[rearm..])?;
    Ok(end)
}

fn next(reader: &mut Reader) -> Result<Record, RecordFault> {
    reader.read(&mut [7u8; RECEIVE_BUFFER])
}

#[cfg(test)]
mod tests {
    use super::super::calls::*;
    use super::*;
    use plantlog::record::{BettorChoice, RuleChoice, Setup};
    use std::test::Fail;

    #[test]
    fn written(rt: HostRuntime) {
        let mut log = [7u8; 27];
        assert_eq!(rt; write_log(&mut log), Ok(26));
        assert!(rt;
            log == [
                4, 1, 2, 3, 1, 4, 2, 4, 2, 3, 5, 3, 2, 0, 0xac, 2, 4, 4, 0xac, 2, 0, 1, 5, 2, 6, 1,
                7,
            ]
        );
    }

    #[test]
    fn read_back(rt: HostRuntime) -> Result<(), Fail> {
        let mut log = [0u8; 26];
        assert_eq!(rt; write_log(&mut log), Ok(26));
        let mut reader = Reader::new(&log);
        assert_eq!(rt; next(&mut reader), Ok(table_of(&[Weight(3), Weight(1)])?));
        let setup = Setup {
            threshold: 4,
            rule: RuleChoice::Page,
            bettor: BettorChoice::Mixture,
        };
        assert_eq!(rt; next(&mut reader), Ok(Record::Setup(setup)));
        assert_eq!(rt;
            next(&mut reader),
            Ok(alternative_of(&[Weight(0), Weight(300)])?)
        );
        assert_eq!(rt; numbered(next(&mut reader)), Err(28));
        assert_eq!(rt; reader.place(), 16);
        assert_eq!(rt; reader.pass_over(&mut [7u8; RECEIVE_BUFFER]), Ok(()));
        assert_eq!(rt; reader.place(), 21);
        assert_eq!(rt; next(&mut reader), Ok(Record::Rearm));
        assert_eq!(rt; next(&mut reader), Ok(Record::End { counts: 1 }));
        assert_eq!(rt; reader.records(), 6);
        assert!(rt; reader.is_over());
        assert_eq!(rt; numbered(next(&mut reader)), Err(45));
        Ok(())
    }
}
