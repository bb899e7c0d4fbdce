//! What became of each number of the ports.
ghost use Rattle.std.specs.Prelude.{◌≡◌, ◌<◌, true, false, [], MatchOption, OnOk, OnErr, vec_len};
ghost use Rattle.bfd_edge.specs.Places.{is_opened, is_shut, place_in, with_place};

use std::alloc::{AllocError, Global};
use std::marker::Model;

/// What became of a number.
#[derive(Drop)]
pub enum Place<T> {
    /// It wasn't opened.
    Waiting,

    /// It was opened.
    Opened,

    /// It was shut, and this was kept.
    Shut(T),
}

/// What became of each number, where ports keep something of each link that was shut. Contracts see it as a
/// list of places by number, behind whose end all numbers are waiting.
#[derive(Drop)]
pub struct Places<T> {
    places: Vec<Place<T>>,
}

impl<T> Model for Places<T> {
    ghost use Rattle.std.specs.Prelude.{List};
    ghost use Rattle.bfd_edge.specs.declared.places.Place.{Place};

    ghost Value = { List (Place T) };

    ghost view = { λ p. p.places.items };
}

/// Makes a place for the number, and for those below it.
fn reach<T: Drop>(places: &mut Vec<Place<T>>, number: usize) -> Result<(), AllocError>
    ensures same { place_in places.new.items ≡ place_in places.old.items }
    ensures there { OnOk result (number < vec_len places.new) }
{
    'growing: while places.len() <= number {
        places.push(Place::Waiting)?;
    }
    Ok(())
}

impl<T: Drop> Places<T> {
    /// No number was opened.
    pub fn new(alloc: Global) -> Self
        ensures { result ≡ [] }
    {
        Places {
            places: Vec::new(alloc),
        }
    }

    /// Opens a number. It fails only when out of memory.
    pub fn open(&mut self, number: u32) -> Result<(), AllocError>
        ensures ok { OnOk result (place_in self.new ≡ with_place number Place.Opened (place_in self.old)) }
        ensures err { OnErr result (place_in self.new ≡ place_in self.old) }
    {
        reach(&mut self.places, number as usize)?;
        self.places[number as usize] = Place::Opened;
        Ok(())
    }

    /// Shuts a number that was opened, and keeps this. It allocates no memory.
    pub fn shut(&mut self, number: u32, kept: T)
        requires { is_opened (place_in self.old number) ≡ true }
        ensures { place_in self.new ≡ with_place number (Place.Shut kept) (place_in self.old) }
    {
        self.places[number as usize] = Place::Shut(kept);
    }

    /// What was kept of a number that was shut.
    pub fn kept(&self, number: u32) -> Option<&T>
        ensures { MatchOption result (is_shut (place_in self.now number) ≡ false)
            (λ kept. place_in self.now number ≡ Place.Shut kept.now) }
    {
        match self.places.get(number as usize) {
            None => None,
            Some(Place::Waiting) => None,
            Some(Place::Opened) => None,
            Some(Place::Shut(kept)) => Some(kept),
        }
    }
}
