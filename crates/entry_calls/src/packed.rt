// reference/FORMAT.md, "A case of runs": the keys that a run is given.
ghost use Rattle.std.specs.Prelude.{◌≤◌};

use case_format::given::long;
use rules::Key;

// Keys as structs, at most 64.
#[derive(Drop)]
pub struct Keys {
    list: [Key; 64],
    count: usize,
    ghost within: { count ≤ 64 },
}

impl Keys {
    pub fn unpacked(packed: &[u8]) -> Keys {
        let mut list = [Key { step: 0, byte: 0 }; 64];
        let (keys, _) = packed.as_chunks::<9>();
        for (key, bytes) in list.iter_mut().zip(keys) {
            *key = Key {
                step: long(bytes, 0),
                byte: bytes[8],
            };
        }
        Keys {
            list,
            count: keys.len().min(64),
        }
    }

    pub fn as_slice(&self) -> &[Key] {
        &self.list[..self.count]
    }
}
