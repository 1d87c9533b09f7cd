// reference/FORMAT.md, "Digest": two numbers for many bytes.
ghost use Rattle.std.specs.Prelude.{◌<◌};

use crate::given::byte;

const FIRST: u64 = 4_294_967_311;

const SECOND: u64 = 4_294_967_357;

// One more word.
fn mixed(x: u64, word: u32, factor: u64, modulus: u64) -> u64
    requires small { (x < 4294967357) × (factor < 1000000000) }
    requires modulus { (0 < modulus) × (modulus < 4294967358) }
    ensures { result < modulus }
{
    (x * factor + u64::from(word)) % modulus
}

// A word of at most four bytes, filled up with zero bytes.
fn padded(bytes: &[u8]) -> u32 {
    u32::from_le_bytes(std::array::from_fn(|i| byte(bytes, i)))
}

// Both numbers.
pub fn digest(s: &[u8]) -> [u64; 2] {
    let mut x = s.len() as u64 % FIRST;
    let mut y = x;
    for bytes in s.chunks(4) {
        let word = padded(bytes);
        x = mixed(x, word, 1_000_003, FIRST);
        y = mixed(y, word, 998_244_353, SECOND);
    }
    [x, y]
}
