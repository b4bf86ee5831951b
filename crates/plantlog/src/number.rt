// Numbers of the log: a byte has seven bits of one, from the low end on, and is 128 more where another goes on with it.
ghost use Rattle.std.specs.Prelude.{◌≡◌, ℕ, ◌+◌, ◌-◌, ◌*◌, ◌<◌, ◌≤◌, ◌++◌, length, drop, Result, List};
ghost use Rattle.plantlog.specs.Results.{of_ok};
ghost use Rattle.plantlog.specs.NumberFaults.{number_fault_number};
ghost use Rattle.plantlog.specs.Numbers.{number_bytes, first_number, first_number_by, NumberRead, NumberExamples};
ghost use Rattle.plantlog.specs.NumberLimits.{BelowLimit};

#[derive(Clone, Copy, Debug, PartialEq, Eq)]
pub enum NumberFault {
    // a fifth byte has more than four bits
    Wide = 13,
    // every byte that is there promises another
    CutShort = 11,
    // a byte that was promised is 0 and adds nothing
    Padded = 12,
}

impl From<NumberFault> for u8 {
    ghost from_gives = { λ fault n. n ≡ number_fault_number fault };

    fn from(fault: NumberFault) -> u8 {
        fault as u8
    }
}

// The length of a number's writing, from its leading zeros.
pub(super) fn group_count(n: u32) -> usize
    ensures value { result ≡ length (number_bytes n) }
    ensures few { result ≤ 5 }
{
    let bits = u32::BITS - n.leading_zeros();
    bits.div_ceil(7).max(1) as usize
}

// Writes a number at the front; the bytes behind it stay.
pub(super) fn put_number(n: u32, out: &mut [u8]) -> usize
    requires { length (number_bytes n) ≤ length out.old }
    ensures value { result ≡ length (number_bytes n) }
    ensures after { out.new ≡ number_bytes n ++ drop (length (number_bytes n)) out.old }
{
    let last = group_count(n) - 1;
    let mut rest = n;
    let more = &mut out[..last];
    for group in more.iter_mut() {
        *group = (rest % 128 + 128) as u8;
        rest /= 128;
    }
    out[last] = rest as u8;
    last + 1
}

// One group and what follows it; `more` groups may come after it, and `several` says that one came before.
fn read_groups(bytes: &[u8], more: u8, several: bool) -> Result<(u32, &[u8]), NumberFault>
    requires { more ≤ 4 }
    ensures value { of_ok (λ p. (p.0, p.1.now)) result ≡ first_number_by more several bytes.now }
    ensures small { BelowLimit more result }
{
    let [first, rest @ ..] = bytes else {
        return Err(NumberFault::CutShort);
    };
    let b = u32::from(*first);
    if more == 0 && b > 15 {
        return Err(NumberFault::Wide);
    }
    if more == 0 || b < 128 {
        if several && b == 0 {
            return Err(NumberFault::Padded);
        }
        return Ok((b, rest));
    }
    let (n, behind) = read_groups(rest, more - 1, true)?;
    Ok((b - 128 + 128 * n, behind))
}

// The number at the front, and the bytes behind it. Numbers of one or two groups, which are most of a log's, are read here,
// since a call for each would cost more than all else that is done with one.
pub fn read_number(bytes: &[u8]) -> Result<(u32, &[u8]), NumberFault>
    ensures value { of_ok (λ p. (p.0, p.1.now)) result ≡ first_number bytes.now }
    ensures read { NumberRead bytes.now (of_ok (λ p. (p.0, p.1.now)) result) }
    ensures only { (r : Result (ℕ × List ℕ) NumberFault) → NumberRead bytes.now r
        → r ≡ of_ok (λ p. (p.0, p.1.now)) result }
    ensures figures { NumberExamples }
{
    let [first, behind @ ..] = bytes else {
        return Err(NumberFault::CutShort);
    };
    if *first < 128 {
        return Ok((u32::from(*first), behind));
    }
    if let [second, rest @ ..] = behind {
        if 0 < *second && *second < 128 {
            return Ok((u32::from(*first) - 128 + 128 * u32::from(*second), rest));
        }
    }
    read_groups(bytes, 4, false)
}
