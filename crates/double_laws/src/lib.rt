// Laws of doubles and singles, document 02, item 7. This crate has proofs, and no code but this.
#![tactic(auto)]

ghost use Rattle.std.specs.Prelude.{◌≡◌};

// The single that a narrowed NaN is.
pub fn narrowed_nan() -> u32
    ensures { result ≡ 0x7FC00000 }
{
    0x7FC0_0000
}
