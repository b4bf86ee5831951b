// Numbers and records put into a buffer.
ghost use Rattle.std.specs.Prelude.{◌≡◌, ◌+◌, ◌-◌, ◌*◌, ◌≤◌, ◌∷◌, ◌++◌, length, drop};
ghost use Rattle.plantlog.specs.Layouts.{kind_byte};
ghost use Rattle.plantlog.specs.Format.{numbers_bytes, Sayable, framed};
ghost use Rattle.plantlog.specs.Written.{room_judged, after_write};

use super::super::fault::RecordFault;
use super::super::number::{group_count, put_number};
use super::super::record::RecordKind;
use edetector::table::MOST_CLASSES;

// The most numbers of a record: how many weights a table has, and each of them.
pub(super) const MOST_NUMBERS: usize = MOST_CLASSES + 1;

// How many bytes the numbers take.
fn numbers_size(numbers: &[u32]) -> usize
    requires { length numbers.now ≤ MOST_NUMBERS }
    ensures { result ≡ length (numbers_bytes numbers.now) }
{
    numbers.iter().map(|n| group_count(*n)).sum()
}

// Writes the numbers at the front; the bytes behind them stay. Where the next number begins is what `put_number` answers.
fn put_numbers(numbers: &[u32], out: &mut [u8])
    requires { length (numbers_bytes numbers.now) ≤ length out.old }
    ensures { out.new ≡ numbers_bytes numbers.now ++ drop (length (numbers_bytes numbers.now)) out.old }
{
    let mut at = 0;
    for n in numbers {
        at += put_number(*n, &mut out[at..]);
    }
}

// Writes a record at the front if it fits; the bytes behind it stay.
pub(super) fn put_record(
    kind: RecordKind,
    numbers: &[u32],
    out: &mut [u8],
) -> Result<usize, RecordFault>
    requires { length numbers.now ≤ MOST_NUMBERS }
    ensures value { result ≡ room_judged (length (framed (kind_byte kind ∷ numbers_bytes numbers.now))) (length out.old) }
    ensures small { Sayable numbers.now }
    ensures after { out.new ≡ after_write result (framed (kind_byte kind ∷ numbers_bytes numbers.now)) out.old }
{
    let size = numbers_size(numbers) + 1;
    if out.len() < size + 1 {
        return Err(RecordFault::WriteBuffer);
    }
    out[0] = size as u8;
    out[1] = u8::from(kind);
    put_numbers(numbers, &mut out[2..]);
    Ok(size + 1)
}
