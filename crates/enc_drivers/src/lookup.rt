//! Indexes of scalars by place.

ghost use Rattle.std.specs.Prelude.{◌≡◌, ◌<◌, ℕ, IfSome};
ghost use Rattle.enc_drivers.specs.Lookup.{Places, FindsScalars, AreByteEntries, IsEntryOf};
ghost use Rattle.enc_drivers.specs.Lookup.{least_place};

/// An index of scalars by place (Encoding Standard, section 5).
pub trait Lookup {
    /// The scalar at each place.
    ghost places: { Self → Places };

    /// The scalar at a place, or none.
    fn at(&self, place: u32) -> Option<char>
        ensures { result ≡ places self.now place };

    /// The least place under `below` that holds the scalar, or none. This body goes over the
    /// places: an index of many places has a body of its own.
    fn place_of(&self, scalar: char, below: u32) -> Option<u32>
        ensures { result ≡ least_place (places self.now) scalar below }
    {
        for place in 0..below {
            if self.at(place) == Some(scalar) {
                return Some(place);
            }
        }
        None
    }

    /// For an encoding of one byte a scalar, the entry of each byte's scalar, or 0: of ASCII as it
    /// is, of 80 to FF by the places from 0 on. `None` is right for every index.
    fn byte_entries(&self) -> Option<&[u32; 256]>
        ensures { IfSome result (λ entries. AreByteEntries (places self.now) entries.now) }
    {
        None
    }

    /// The entry (`enc_handles::entry::entry_of`) of the scalar at a place, or 0 where that isn't
    /// told: where there is none, or it is above U+FFFF. 0 is right for every index.
    fn entry(&self, place: u32) -> u32
        ensures { 0 < result → IsEntryOf (places self.now place) result }
    {
        let _ = place;
        0
    }

    /// What is found is a scalar.
    ghost scalars: { (index : Self) → FindsScalars (places index) };
}
