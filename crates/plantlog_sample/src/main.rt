// Writes a small log, reads it back and prints its records.
#![tactic(auto)]

use edetector::units::Weight;
use plantlog::fault::RecordFault;
use plantlog::reader::{RECEIVE_BUFFER, Reader};
use plantlog::record::{Announced, Record};
use plantlog::writer::{
    write_alternative, write_count, write_end, write_rearm, write_setup, write_table,
};
use std::io;

// Writes the records one after the other and gives their length.
fn write_log(log: &mut [u8]) -> Result<usize, RecordFault> {
    let table = write_table(&[Weight(3), Weight(1)], log)?;
    let setup = table + write_setup(4, 1, 1, &mut log[table..])?;
    let alternative = setup + write_alternative(&[Weight(1), Weight(1)], &mut log[setup..])?;
    let count = alternative + write_count(300, 2, &mut log[alternative..])?;
    let rearm = count + write_rearm(&mut log[count..])?;
    let end = rearm + write_end(1, &mut log[rearm..])?;
    Ok(end)
}

fn print_record(rt: &HostRuntime, record: Record) -> io::Result<()> {
    match record {
        Record::Table(table) => println!(rt; "table total {}", table.total()),
        Record::Setup(setup) => println!(rt;
            "setup threshold {} rule {} bettor {}",
            setup.threshold,
            u32::from(setup.rule),
            u32::from(setup.bettor)
        ),
        Record::Alternative(_) => println!(rt; "alternative"),
        Record::Rearm => println!(rt; "rearm"),
        Record::End { counts } => println!(rt; "end counts {counts}"),
    }
}

fn print_fault(rt: &HostRuntime, fault: RecordFault) -> io::Result<()> {
    println!(rt; "fault {}", u8::from(fault))
}

// Prints the next record; a count's number stays unseen.
fn print_next(rt: &HostRuntime, reader: &mut Reader, buf: &mut [u8]) -> io::Result<()> {
    match reader.ask(buf) {
        Ok(None) => println!(rt; "none left"),
        Ok(Some(Announced::Count(head))) => match reader.pass_over(buf) {
            Ok(()) => println!(rt; "count day {}", head.day),
            Err(fault) => print_fault(rt, fault),
        },
        Ok(Some(Announced::Other(_))) => match reader.read(buf) {
            Ok(record) => print_record(rt, record),
            Err(fault) => print_fault(rt, fault),
        },
        Err(fault) => print_fault(rt, fault),
    }
}

fn print_log(rt: &HostRuntime, log: &[u8], buf: &mut [u8]) -> io::Result<()> {
    let mut reader = Reader::new(log);
    // one call for each of the six records, and one past the last: no index is counted
    for _ in 0..7 {
        print_next(rt, &mut reader, buf)?;
    }
    Ok(())
}

fn main(rt: HostRuntime) -> io::Result<()> {
    let mut log = [0u8; 25];
    let mut buf = [0u8; RECEIVE_BUFFER];
    match write_log(&mut log) {
        Ok(n) => {
            println!(rt; "bytes {n}")?;
            print_log(&rt, &log, &mut buf)
        }
        Err(fault) => print_fault(&rt, fault),
    }
}
