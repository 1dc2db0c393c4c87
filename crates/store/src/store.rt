// What every store of keys promises.
ghost use Rattle.std.specs.Prelude.{◌≡◌, Some};
ghost use Rattle.store.specs.Views.{View, Tells, Adds, Raises, Empty, counted, refusal, refusal_name};

use keys::Key;
use std::error::Error;
use std::fmt;

/// A key with its count.
#[derive(Drop)]
pub struct Entry<K> {
    pub key: K,
    pub count: u8,
}

impl<K> Entry<K> {
    // One more of the key, unless its count is 255.
    pub(crate) fn raise(&mut self) -> Result<(), Refused>
        ensures { Raises self.old self.new result }
    {
        self.count = self.count.checked_add(1).ok_or(Refused::Saturated)?;
        Ok(())
    }
}

// What a search for a key comes to: the place that holds it and its count, where it can be put, or neither.
#[derive(Clone, Copy)]
pub(crate) enum Found<P> {
    At(usize, u8),
    Open(P),
    Nowhere,
}

impl<P> Found<P> {
    pub(crate) fn count(&self) -> u8
        ensures { result ≡ counted self.now }
    {
        match self {
            Found::At(_, count) => *count,
            _ => 0,
        }
    }
}

/// Why a key is not added: no room for one more key, or its count is 255.
#[derive(Clone, Copy, PartialEq, Eq, Debug)]
pub enum Refused {
    Full = 24,
    Saturated = 25,
}

impl Refused {
    /// The number of the refusal.
    pub fn number(self) -> u8
        ensures { result ≡ refusal self }
    {
        self as u8
    }
}

impl fmt::Display for Refused {
    ghost output = { λ r. Some (refusal_name r) };

    fn fmt<W: fmt::Write>(&self, f: &mut fmt::Formatter<W>) -> fmt::Result {
        f.write_str(match self {
            Refused::Full => "full",
            Refused::Saturated => "saturated",
        })
    }
}

impl Error for Refused {}

/// What counts keys, in the room that it has.
pub trait Store<K: Key> {
    ghost view: { Self → View K };

    /// How many keys there is room for.
    fn capacity(&self) -> usize
        ensures { result ≡ (view self.now).capacity };

    /// The count of the key, 0 if it is not held.
    fn count(&mut self, key: &K) -> u8
        ensures { Tells K.Key.equals (view self.old) (view self.new) key.now result };

    /// Adds one to the count of the key.
    fn add(&mut self, key: K) -> Result<(), Refused>
        ensures { Adds K.Key.equals (view self.old) (view self.new) key result };

    /// Forgets the keys, and keeps the room.
    fn clear(&mut self)
        ensures { Empty (view self.old).capacity (view self.new) };
}
