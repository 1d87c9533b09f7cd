// 32-bit words: document 01, "What is emulated" and "Opcodes".
#![tactic(auto)]

ghost use Rattle.std.specs.Prelude.{◌≡◌, ◌^◌, ◌<◌, ◌≤◌};
ghost use Rattle.word.specs.Word.{sum, difference, product, extend, quotient, remainder};
ghost use Rattle.word.specs.Word.{shift_left, shift_right, shift_right_unsigned, shift_count, less_signed};
ghost use Rattle.word.specs.Magnitude.{magnitude, negative, with_sign};

// The low 32 bits of a sum.
pub fn sum(x: u32, y: u32) -> u32
    ensures { result ≡ sum x y }
{
    x.wrapping_add(y)
}

// The low 32 bits of a difference.
pub fn difference(x: u32, y: u32) -> u32
    ensures { result ≡ difference x y }
{
    x.wrapping_sub(y)
}

// The low 32 bits of a product.
pub fn product(x: u32, y: u32) -> u32
    ensures { result ≡ product x y }
{
    x.wrapping_mul(y)
}

// Whether a word stands for a negative number.
fn negative(x: u32) -> bool
    ensures { result ≡ negative x }
{
    x.cast_signed().is_negative()
}

// The magnitude of the number that a word stands for: 7 for -7, 2^31 for -2^31.
fn magnitude(x: u32) -> u32
    ensures { result ≡ magnitude x }
{
    x.cast_signed().unsigned_abs()
}

// A magnitude with its sign put back.
pub fn with_sign(minus: bool, m: u32) -> u32
    ensures { result ≡ with_sign minus m }
{
    if minus { m.wrapping_neg() } else { m }
}

// The signed quotient, cut toward zero. -7 by 2: 7 / 2 is 3, the signs differ, so -3.
// -2^31 by -1 needs no test: 2^31 / 1 is 2^31, whose word is 0x80000000.
pub fn quotient(x: u32, y: u32) -> u32
    requires { 0 < y }
    ensures { result ≡ quotient x y }
{
    let q = magnitude(x) / magnitude(y);
    with_sign(negative(x) != negative(y), q)
}

// The signed remainder, with the sign of the dividend. -7 by 2: 7 % 2 is 1, so -1.
pub fn remainder(x: u32, y: u32) -> u32
    requires { 0 < y }
    ensures { result ≡ remainder x y }
{
    let r = magnitude(x) % magnitude(y);
    with_sign(negative(x), r)
}

// A shift to the left by any count, taken modulo 32.
#[tactic(auto, unfolding(crate::specs::Word::shift_left, crate::specs::Word::shift_count))]
pub fn shift_left(x: u32, count: u32) -> u32
    ensures { result ≡ shift_left x (shift_count count) }
{
    x.wrapping_shl(count)
}

// A shift to the right by any count, taken modulo 32, that copies the sign bit.
pub fn shift_right(x: u32, count: u32) -> u32
    ensures { result ≡ shift_right x (shift_count count) }
{
    x.cast_signed().wrapping_shr(count).cast_unsigned()
}

// A shift to the right by any count, taken modulo 32, that brings zeros in.
#[tactic(auto, unfolding(crate::specs::Word::shift_right_unsigned, crate::specs::Word::shift_count))]
pub fn shift_right_unsigned(x: u32, count: u32) -> u32
    ensures { result ≡ shift_right_unsigned x (shift_count count) }
{
    x.wrapping_shr(count)
}

// Whether x is below y as signed numbers.
pub fn less_signed(x: u32, y: u32) -> bool
    ensures { result ≡ less_signed x y }
{
    x.cast_signed() < y.cast_signed()
}

// The word whose low bits are x, the sign bit copied above them.
pub fn extend<const BITS: u32>(x: u32) -> u32
    requires width { (0 < BITS) × (BITS ≤ 32) }
    requires fits { x < 2 ^ BITS }
    ensures { result ≡ extend BITS x }
{
    let above = 32 - BITS;
    ((x << above).cast_signed() >> above).cast_unsigned()
}

// An instruction's upper 24 bits as a signed word. Without a test: compilers then shift the word, and keep no copy of it.
pub fn immediate(field: u32) -> u32
    requires { field < 2 ^ 24 }
    ensures { result ≡ extend 24 field }
{
    extend::<24>(field)
}
