//! The digits of a number, written into a slice from their end.

ghost use Rattle.std.specs.Prelude.{◌≡◌, ◌+◌, ◌/◌, ◌%◌, ◌<◌, ◌≤◌, ◌∷◌, ◌++◌, length, drop};
ghost use Rattle.std.specs.Fmt.{decimal};

// The two digits of each number below 100, in order.
static PAIRS: [u8; 200] =
    *b"0001020304050607080910111213141516171819202122232425262728293031323334353637383940414243444546474849\
      5051525354555657585960616263646566676869707172737475767778798081828384858687888990919293949596979899";

// Writes two digits.
#[inline(always)]
fn write_pair(pair: u64, bytes: &mut [u8], at: usize)
    requires { (pair < 100) × (at + 2 ≤ length bytes.old) }
    ensures { drop at bytes.new ≡ (48 + pair / 10) ∷ (48 + pair % 10) ∷ drop (at + 2) bytes.old }
{
    let from = pair as usize * 2;
    let (tens, ones) = (PAIRS[from], PAIRS[from + 1]);
    bytes[at] = tens;
    bytes[at + 1] = ones;
}

// Writes the one or two digits of a number below 100 so that they end at `end`, and returns where they start.
#[inline(always)]
fn write_first(number: u64, bytes: &mut [u8], end: usize) -> usize
    requires { (number < 100) × (length (decimal number) ≤ end) × (end ≤ length bytes.old) }
    ensures start { result + length (decimal number) ≡ end }
    ensures written { drop result bytes.new ≡ decimal number ++ drop end bytes.old }
{
    if number < 10 {
        bytes[end - 1] = b'0' + number as u8;
        return end - 1;
    }
    write_pair(number, bytes, end - 2);
    end - 2
}

/// Writes the digits of a number so that they end at the index `end`, and returns the index at which they start.
#[inline]
pub(crate) fn write_digits(number: u64, bytes: &mut [u8], end: usize) -> usize
    requires { (length (decimal number) ≤ end) × (end ≤ length bytes.old) }
    ensures start { result + length (decimal number) ≡ end }
    ensures written { drop result bytes.new ≡ decimal number ++ drop end bytes.old }
{
    let mut remaining = number;
    let mut at = end;
    while remaining >= 100 {
        write_pair(remaining % 100, bytes, at - 2);
        remaining /= 100;
        at -= 2;
    }
    write_first(remaining, bytes, at)
}
