// Numbers in decimal and octets in hexadecimal, in ASCII.
#![tactic(auto)]

ghost use Rattle.std.specs.Prelude.{◌≡◌, ◌+◌, ◌%◌, ◌≤◌, ◌<◌, length};
ghost use Rattle.octets.specs.Splice.{splice};
ghost use Rattle.numerals.specs.Decimal.{digits, width, decimal};
ghost use Rattle.numerals.specs.Hexadecimal.{hex_digit};

// The last N decimal digits of a number, leading zeros too. One loop with `octets::be`, over the base, would need a definition beside `digits` and `be`:
// no plainer.
pub fn digits<const N: usize>(n: u32) -> [u8; N]
    ensures { result ≡ digits N n }
{
    let mut digits = [b'0'; N];
    let mut rest = n;
    for i in 0..N {
        digits[N - 1 - i] = b'0' + (rest % 10) as u8;
        rest /= 10;
    }
    digits
}

// How many digits a number has.
pub fn width_of(n: u32) -> usize
    ensures { (result ≡ width n) × (1 ≤ result) × (result ≤ 10) }
{
    n.max(1).ilog10() as usize + 1
}

// Writes a number without leading zeros, from `at` on.
pub fn put_decimal(n: u32, output: &mut [u8], at: usize)
    requires { at + width n ≤ length output.old }
    ensures { output.new ≡ splice output.old at (decimal n) }
{
    let ten = digits::<10>(n);
    let leading = 10 - width_of(n);
    octets::copy(output, at, &ten[leading..]);
}

// The digit of a number below 16.
pub fn hex_digit(n: u8) -> u8
    requires { n < 16 }
    ensures { result ≡ hex_digit n }
{
    if n < 10 { b'0' + n } else { b'A' + (n - 10) }
}
