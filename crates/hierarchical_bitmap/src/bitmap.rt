// Places, and which of them are set.
ghost use Rattle.std.specs.Prelude.{◌≡◌, ◌<◌, ◌/◌, ◌+◌, length, true, false, position, replicate};
ghost use Rattle.std.specs.Prelude.{slice_set, IfOk};
ghost use Rattle.hierarchical_bitmap.specs.Levels.{itself};

use crate::words::{clear_bit, first_word, lowest_in, set_bit};
use std::alloc::{AllocError, Global};
use std::marker::Model;

/// Places, numbered from 0, each set or not. The lowest that is set is found from one word of each
/// level, whatever the number of places, up to 262,144 of them; beyond that the words of the upper
/// level are searched, one for each 262,144 places. Contracts see a truth value a place.
#[derive(Drop)]
pub struct Bitmap {
    count: u32,
    places: Vec<u64>,
    // a bit a word of `places`
    words: Vec<u64>,
    // a bit a word of `words`
    groups: Vec<u64>,
}

impl Model for Bitmap {
    ghost use Rattle.std.specs.Prelude.{Bool, List};
    ghost use Rattle.hierarchical_bitmap.specs.Levels.{AreLevels, places_set};

    ghost Value = { List Bool };

    ghost view = { λ b. places_set b.count b.places.items };

    ghost invariant = { λ b. AreLevels b.count b.places.items b.words.items b.groups.items };
}

impl Bitmap {
    /// `count` places, none of them set. All their memory is taken here.
    pub fn empty(alloc: Global, count: u32) -> Result<Bitmap, AllocError>
        ensures { IfOk result (λ b. b ≡ replicate count false) }
    {
        let places = count as usize / 64 + 1;
        let words = places / 64 + 1;
        Ok(Bitmap {
            count,
            places: zeros(alloc, places)?,
            words: zeros(alloc, words)?,
            groups: zeros(alloc, words / 64 + 1)?,
        })
    }

    /// `count` places, all set. All their memory is taken here.
    pub fn full(alloc: Global, count: u32) -> Result<Bitmap, AllocError>
        ensures { IfOk result (λ b. b ≡ replicate count true) }
    {
        let mut bitmap = Bitmap::empty(alloc, count)?;
        for place in 0..count {
            bitmap.set(place);
        }
        Ok(bitmap)
    }

    /// The lowest place that is set. None exactly where none is.
    pub fn lowest(&self) -> Option<u32>
        ensures { result ≡ position itself self.now }
    {
        match first_word(&self.groups) {
            None => None,
            Some(index) => {
                let group = lowest_in(&self.groups, index);
                let word = lowest_in(&self.words, group);
                Some(lowest_in(&self.places, word) as u32)
            }
        }
    }

    /// Sets a place. Nothing else changes.
    pub fn set(&mut self, place: u32)
        requires { place < length self.old }
        ensures { self.new ≡ slice_set self.old place true }
    {
        let place = place as usize;
        set_bit(&mut self.places, place);
        set_bit(&mut self.words, place / 64);
        set_bit(&mut self.groups, place / 64 / 64);
    }

    /// Clears a place. Nothing else changes.
    pub fn clear(&mut self, place: u32)
        requires { place < length self.old }
        ensures { self.new ≡ slice_set self.old place false }
    {
        let place = place as usize;
        if clear_bit(&mut self.places, place) {
            if clear_bit(&mut self.words, place / 64) {
                let _zero = clear_bit(&mut self.groups, place / 64 / 64);
            }
        }
    }
}

fn zeros(alloc: Global, count: usize) -> Result<Vec<u64>, AllocError>
    ensures { IfOk result (λ words. words.items ≡ replicate count 0) }
{
    vec![in alloc; 0; count]
}
