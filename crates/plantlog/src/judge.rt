// The next record judged whole, in the receive buffer.
ghost use Rattle.std.specs.Prelude.{◌≡◌, ◌+◌, ◌-◌, ◌<◌, ◌≤◌, length, drop, IfOk};
ghost use Rattle.plantlog.specs.Bytes.{zeros};
ghost use Rattle.plantlog.specs.Results.{of_ok};
ghost use Rattle.plantlog.specs.FirstRecord.{front};
ghost use Rattle.plantlog.specs.Views.{parsed_said};
ghost use Rattle.plantlog.specs.Calls.{next_in, span, roomy};

use super::fault::{FrontFault, RecordFault};
use super::guard::Guard;
use super::parse::parse;
use super::reader::RECEIVE_BUFFER;
use super::record::Parsed;

// A count that was judged whole, with the bytes that its record takes.
#[derive(Clone, Copy, Debug, PartialEq, Eq)]
pub(super) struct JudgedCount {
    pub(super) count: u32,
    pub(super) span: usize,
}

// The body in front, by its length byte.
fn front_body(left: &[u8]) -> Result<&[u8], FrontFault>
    ensures value { of_ok (λ b. (b.now, drop (length b.now + 1) left.now)) result ≡ front left.now }
    ensures room { IfOk result (λ b. (length b.now + 1 ≡ span left.now) × (length b.now + 1 ≤ length left.now) × (length b.now ≤ RECEIVE_BUFFER)) }
{
    let [length, rest @ ..] = left else {
        return Err(FrontFault::NoneLeft);
    };
    let n = *length as usize;
    if !(1..=RECEIVE_BUFFER).contains(&n) {
        return Err(FrontFault::LengthByte);
    }
    let Some(body) = rest.get(..n) else {
        return Err(FrontFault::Truncated);
    };
    Ok(body)
}

// The record in front, and how many bytes it takes.
#[inline(always)]
pub(super) fn judge_next(left: &[u8], buf: &mut [u8]) -> Result<(Parsed, usize), RecordFault>
    ensures zero { buf.new ≡ zeros buf.old }
    ensures value { of_ok (λ p. (parsed_said p.0, drop p.1 left.now)) result ≡ next_in (length buf.old) left.now }
    ensures room { IfOk result (λ p. (p.1 ≡ span left.now) × (p.1 ≤ length left.now) × (1 ≤ p.1)) }
{
    let guard = Guard { buf };
    guard.fits()?;
    let body = front_body(left)?;
    let n = body.len();
    guard.buf[0..n].copy_from_slice(body);
    let parsed = parse(&guard.buf[0..n])?;
    Ok((parsed, n + 1))
}

// For a call that judges nothing anew: the receive buffer is wiped, and has to be long enough all the same.
pub(super) fn wiped(buf: &mut [u8]) -> Result<(), RecordFault>
    ensures zero { buf.new ≡ zeros buf.old }
    ensures value { result ≡ roomy (length buf.old) (Ok tt) }
{
    Guard { buf }.fits()
}
