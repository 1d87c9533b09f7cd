// Document 02, item 2: lines of listings, computed over the definitions, so this crate has definitions and proofs, and no code but this.
#![tactic(auto)]

ghost use Rattle.std.specs.Prelude.{◌≡◌};

// The number of files.
pub fn files() -> u32
    ensures { result ≡ 3 }
{
    3
}
