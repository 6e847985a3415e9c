//! Stretches of an index: scalars in a row whose least places are in a row too.

ghost use Rattle.std.specs.Prelude.{◌≡◌, ◌⊎◌, ℕ, ◌+◌, ◌<◌, ◌≤◌, IfSome, length, max};
ghost use Rattle.std.specs.List.Sorted.{IsNonDecreasing};

// A scalar and its least place, and how many scalars in a row from it on have the places behind.
#[derive(Clone, Copy, Debug)]
pub(crate) struct Stretch {
    scalar: u64,
    place: u64,
    length: u64,
    ghost scalars: { scalar < 0x1_0000_0000 },
    ghost places: { place + length ≤ 0x1_0000_0000 },
}

impl Stretch {
    ghost use Rattle.enc_front.specs.Stretch.{GoesOn, HasStretch, IsWithin};

    // The longest one by sorted keys.
    pub(crate) fn longest_of(keys: &[u64]) -> Stretch
        requires { IsNonDecreasing keys.now }
        ensures { HasStretch keys.now result }
    {
        let mut longest = Stretch::none();
        let mut last = Stretch::none();
        for key in keys {
            last = last.then(*key);
            longest = longest.or_longer(last);
        }
        longest
    }

    // The place of a scalar, if it is one of these.
    #[inline(always)]
    pub(crate) fn place_of(self, scalar: u32) -> Option<u64>
        ensures { IfSome result (λ place. IsWithin self scalar place) }
    {
        let scalar = u64::from(scalar);
        if scalar < self.scalar {
            return None;
        }
        let offset = scalar - self.scalar;
        if offset < self.length {
            Some(self.place + offset)
        } else {
            None
        }
    }

    // That of no scalar.
    fn none() -> Stretch
        ensures { result.length ≡ 0 }
    {
        Stretch {
            scalar: 0,
            place: 0,
            length: 0,
        }
    }

    // The stretch that ends with a key, where this one ends with the keys before it: longer by the
    // next scalar at the next place, as it is at a further place of its last scalar, or else new.
    fn then(self, key: u64) -> Stretch
        ensures { GoesOn key self result }
    {
        let scalar = key / 0x1_0000_0000;
        let place = key % 0x1_0000_0000;
        if scalar < self.scalar + self.length {
            return self;
        }
        if scalar == self.scalar + self.length && place == self.place + self.length {
            return Stretch {
                scalar: self.scalar,
                place: self.place,
                length: self.length + 1,
            };
        }
        Stretch {
            scalar,
            place,
            length: 1,
        }
    }

    // Another one, if it is longer, or else this one.
    fn or_longer(self, other: Stretch) -> Stretch
        ensures one { (result ≡ self) ⊎ (result ≡ other) }
        ensures longer { result.length ≡ max self.length other.length }
    {
        if self.length < other.length {
            other
        } else {
            self
        }
    }
}
