//! Bytes at the front of what is to be decoded.
ghost use Rattle.std.specs.Prelude.{◌≡◌, ◌+◌, ◌<◌, ◌≤◌, ◌++◌, [], ◌∷◌, length, take, drop};

// At most four bytes, the most that a unit has.
#[derive(Clone, Copy)]
pub(crate) struct Front {
    bytes: [u8; 4],
    len: usize,
    ghost within: { len ≤ 4 },
}

impl Front {
    ghost use Rattle.enc_drivers.specs.Front.{front_bytes};

    pub(crate) fn new() -> Front
        ensures { front_bytes result ≡ [] }
    {
        Front {
            bytes: [0; 4],
            len: 0,
        }
    }

    pub(crate) fn len(&self) -> usize
        ensures count { result ≡ length (front_bytes self.now) }
        ensures few { result ≤ 4 }
    {
        self.len
    }

    pub(crate) fn as_slice(&self) -> &[u8]
        ensures { result.now ≡ front_bytes self.now }
    {
        &self.bytes[..self.len]
    }

    pub(crate) fn push(&mut self, byte: u8)
        requires { length (front_bytes self.old) < 4 }
        ensures { front_bytes self.new ≡ front_bytes self.old ++ byte ∷ [] }
    {
        self.bytes[self.len] = byte;
        self.len += 1;
    }

    // Takes the last byte off.
    pub(crate) fn pop(&mut self)
        requires { 0 < length (front_bytes self.old) }
        ensures { (length (front_bytes self.new) + 1 ≡ length (front_bytes self.old))
            × (front_bytes self.new ≡ take (length (front_bytes self.new)) (front_bytes self.old)) }
    {
        self.len -= 1;
    }

    // The bytes behind the first `n`.
    pub(crate) fn behind(&self, n: usize) -> Front
        requires { n ≤ length (front_bytes self.now) }
        ensures { front_bytes result ≡ drop n (front_bytes self.now) }
    {
        Front::of(&self.as_slice()[n..])
    }

    // A front of these bytes.
    pub(crate) fn of(bytes: &[u8]) -> Front
        requires { length bytes.now ≤ 4 }
        ensures { front_bytes result ≡ bytes.now }
    {
        let mut front = Front::new();
        for byte in bytes {
            front.push(*byte);
        }
        front
    }
}
