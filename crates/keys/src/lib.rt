// Document 01, "The record and the loaded program": "The keys come as a list of records, each a step number and a byte"; as structs, and
// packed in bytes.
#![tactic(auto)]

ghost use Rattle.std.specs.Prelude.{◌≡◌, ◌<◌, List, length, slice_get, Some};
ghost use Rattle.rules.specs.declared.Key.{Key};
ghost use Rattle.rules.specs.Run.{keys_rise};
ghost use Rattle.rules.specs.Clock.{next_of};
ghost use Rattle.keys.specs.Packed.{unpacked};

use rules::Key;

// A list of keys, in the form in which it was lent.
pub trait KeyList {
    ghost keys: { Self → List Key };

    fn count(&self) -> usize
        ensures { result ≡ length (keys self.now) };

    fn key(&self, i: usize) -> Key
        requires { i < length (keys self.now) }
        ensures { slice_get (keys self.now) i ≡ Some result };
}

// Whether the step numbers of the keys never fall.
pub fn rising<L: KeyList>(keys: &L) -> bool
    ensures { result ≡ keys_rise 0 (L.keys keys.now) }
{
    let mut last = 0;
    for i in 0..keys.count() {
        let step = keys.key(i).step;
        if step < last {
            return false;
        }
        last = step;
    }
    true
}

// The first key that has not been taken, if there is one.
pub fn next_key<L: KeyList>(keys: &L, taken: usize) -> Option<Key>
    ensures { result ≡ next_of (L.keys keys.now) taken }
{
    if taken < keys.count() {
        Some(keys.key(taken))
    } else {
        None
    }
}

impl KeyList for &[Key] {
    ghost keys = { λ ks. ks.now };

    fn count(&self) -> usize {
        self.len()
    }

    fn key(&self, i: usize) -> Key {
        self[i]
    }
}

// Packed keys: nine bytes a key, eight of its step number, the lowest first, and its byte.
#[derive(Clone, Copy)]
pub struct PackedKeys<'a>(pub &'a [u8]);

impl KeyList for PackedKeys<'_> {
    ghost keys = { λ ks. unpacked ks.0.now };

    #[tactic(auto, using(crate::proofs::Packed::length_unpacked))]
    fn count(&self) -> usize {
        self.0.len() / 9
    }

    #[tactic(auto, using(crate::proofs::Packed::length_unpacked))]
    fn key(&self, i: usize) -> Key {
        Key {
            step: memory::load8(self.0, 9 * i),
            byte: self.0[9 * i + 8],
        }
    }
}
