// Octets: copying into a part of a slice, and big-endian numbers.
#![tactic(auto)]

ghost use Rattle.std.specs.Prelude.{◌≡◌, ◌+◌, ◌≤◌, ◌<◌, length};
ghost use Rattle.octets.specs.Splice.{splice};
ghost use Rattle.octets.specs.Number.{be, num};

// Writes `src` over `dst` from `at` on.
pub fn copy<T: Copy>(dst: &mut [T], at: usize, src: &[T])
    requires { at + length src.now ≤ length dst.old }
    ensures { dst.new ≡ splice dst.old at src.now }
{
    for i in 0..src.len() {
        dst[at + i] = src[i];
    }
}

// The last N octets of a number, most significant first.
pub fn be<const N: usize>(n: usize) -> [u8; N]
    ensures { result ≡ be N n }
{
    let mut octets = [0u8; N];
    let mut rest = n;
    for i in 0..N {
        octets[N - 1 - i] = (rest % 256) as u8;
        rest /= 256;
    }
    octets
}

// The number of the N octets of `s` from `at` on, most significant first.
pub fn num<const N: usize>(s: &[u8], at: usize) -> u32
    requires { (at + N ≤ length s.now) × (N ≤ 4) }
    ensures { result ≡ num N s.now at }
{
    let mut n: u32 = 0;
    for i in 0..N {
        n = n * 256 + u32::from(s[at + i]);
    }
    n
}
