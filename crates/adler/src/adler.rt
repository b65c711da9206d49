// The Adler-32 of some bytes.
ghost use Rattle.std.specs.Prelude.{◌≡◌};
ghost use Rattle.adler.specs.Adler.{adler_32};

// The greatest prime below 65,536.
const ADLER_BASE: u32 = 65_521;

pub fn adler_32(s: &[u8]) -> u32
    ensures { result ≡ adler_32 s.now }
{
    let mut low: u32 = 1;
    let mut high: u32 = 0;
    for &b in s {
        low = (low + u32::from(b)) % ADLER_BASE;
        high = (high + low) % ADLER_BASE;
    }
    high * 65_536 + low
}
