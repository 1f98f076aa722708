//! Who was born in a run.
ghost use Rattle.std.specs.Prelude.{◌≡◌, ◌++◌, ◌∷◌, [], ℕ, List, length, drop, OnOk, true};
ghost use Rattle.std.specs.Prelude.{unwrap_or};
ghost use Rattle.dos_world.specs.Numbered.{numbered};
ghost use Rattle.dos_world.specs.World.{flat};
ghost use Rattle.group_moves.specs.Moments.{Moment};
ghost use Rattle.proc_table.specs.Tables.{thread_in};
ghost use Rattle.kernel_calls.specs.StateWorld.{world_of, sent, IsSound};
ghost use Rattle.debug_session.specs.Homes.{birth_thread, home_of};
ghost use Rattle.debug_client.specs.Births.{no_births, KnowsBirths, AreBirthsKnown, HasNoted};
ghost use Rattle.debug_client.specs.Births.{has_process, has_image, has_home, has_named};
ghost use Rattle.debug_client.specs.Births.{has_processes, Grows};
ghost use Rattle.debug_client.specs.Births.{knows_id, knows_named, process_of_thread, image_behind};
ghost use Rattle.debug_client.specs.Births.{homes_behind, firsts_behind, image_by, images_with};

use crate::actions::thread_named;
use gdb_packets::ids::ThreadId;
use gdb_packets::resumptions::Resumption;
use kernel_calls::State;
use proc_table::Table;
use std::alloc::{AllocError, Global};
use std::marker::Model;

/// Of each process that was born in a run its image and the thread that it was born with, and of
/// each thread the process that it was born in, as the moments told that were noted. Contracts see
/// the tables.
#[derive(Drop)]
pub struct Births {
    images: u32,
    image_numbers: Vec<u32>,
    first_threads: Vec<Option<u32>>,
    homes: Vec<Option<u32>>,
    is_whole: bool,
}

impl Model for Births {
    ghost use Rattle.debug_client.specs.Births.{BirthTables};

    ghost Value = { BirthTables };

    ghost view = { λ b. record {
      images = b.images;
      image_numbers = b.image_numbers.items;
      first_threads = b.first_threads.items;
      homes = b.homes.items;
      is_whole = b.is_whole;
    } };
}

// the process of a thread that lives
fn home_at(table: &Table, thread: u32) -> Option<u32>
    ensures { result ≡ process_of_thread (thread_in table.now.threads thread) }
{
    if table.is_thread(thread) {
        return Some(table.process_of(thread));
    }
    None
}

// of each thread that isn't kept yet
fn note_homes(homes: &mut Vec<Option<u32>>, table: &Table) -> Result<(), AllocError>
    ensures { OnOk result (homes.new.items ≡ homes.old.items
        ++ homes_behind (length homes.old.items) table.now.threads) }
{
    for place in homes.len()..table.threads() as usize {
        homes.push(home_at(table, place as u32 + 1))?;
    }
    Ok(())
}

// of each process that isn't kept yet
fn note_first_threads(firsts: &mut Vec<Option<u32>>, table: &Table) -> Result<(), AllocError>
    ensures { OnOk result (firsts.new.items ≡ firsts.old.items
        ++ firsts_behind (length firsts.old.items) table.now.processes table.now.threads) }
{
    for place in firsts.len()..table.processes() as usize {
        firsts.push(table.first_thread(place as u32 + 1))?;
    }
    Ok(())
}

// a number of the table; 0 where it has none
fn number_at(numbers: &[u32], place: u32) -> u32
    ensures { result ≡ unwrap_or (numbered numbers.now place) 0 }
{
    if place == 0 {
        return 0;
    }
    match numbers.get(place as usize - 1) {
        None => 0,
        Some(number) => *number,
    }
}

// the number of the image of a process, by those of processes with lower numbers
fn image_by(images: u32, numbers: &[u32], process: u32, parent: u32) -> u32
    ensures { result ≡ image_by images numbers.now process parent }
{
    if process <= images {
        return process;
    }
    number_at(numbers, parent)
}

// of each process that isn't kept yet
fn note_images(images: u32, numbers: &mut Vec<u32>, table: &Table) -> Result<(), AllocError>
    ensures { OnOk result (numbers.new.items ≡ images_with images numbers.old.items
        (drop (length numbers.old.items) table.now.processes)) }
{
    for place in numbers.len()..table.processes() as usize {
        let process = place as u32 + 1;
        numbers.push(image_by(images, numbers, process, table.parent(process)))?;
    }
    Ok(())
}

// what is kept of a number
fn kept_at(kept: &[Option<u32>], place: u32) -> Option<u32>
    ensures { result ≡ flat (numbered kept.now place) }
{
    if place == 0 {
        return None;
    }
    match kept.get(place as usize - 1) {
        None => None,
        Some(number) => *number,
    }
}

impl Births {
    /// Of a run of so many images: nothing was noted.
    pub fn new(alloc: Global, images: u32) -> Births
        ensures none { result ≡ no_births images }
        ensures known { KnowsBirths result [] }
    {
        Births {
            images,
            image_numbers: Vec::new(alloc),
            first_threads: Vec::new(alloc),
            homes: Vec::new(alloc),
            is_whole: false,
        }
    }

    /// The state of the next moment, at which numbers may be there for the first time.
    pub fn note(&mut self, state: &State) -> Result<(), AllocError>
        requires { IsSound state.now }
        ensures known { (noted : List Moment) (m : Moment) (q : ℕ) (output error : List ℕ)
            → m.world ≡ sent output error (world_of q state.now)
            → KnowsBirths self.old noted
            → OnOk result (KnowsBirths self.new (noted ++ m ∷ [])) }
        ensures there { OnOk result (HasNoted self.new state.now) }
        ensures grows { OnOk result (Grows self.old self.new) }
        ensures same { HasNoted self.old state.now → OnOk result (self.new ≡ self.old) }
        ensures images { self.new.images ≡ self.old.images }
        ensures whole { self.new.is_whole ≡ self.old.is_whole }
    {
        note_images(self.images, &mut self.image_numbers, &state.table)?;
        note_first_threads(&mut self.first_threads, &state.table)?;
        note_homes(&mut self.homes, &state.table)
    }

    /// All moments of the run were noted.
    pub fn set_whole(&mut self)
        ensures { self.new ≡ record self.old { is_whole = true } }
    {
        self.is_whole = true;
    }

    /// Whether all moments of the run were noted.
    pub fn is_whole(&self) -> bool
        ensures { result ≡ self.now.is_whole }
    {
        self.is_whole
    }

    /// Whether it is known which thread a process was born with.
    pub fn has_process(&self, process: u32) -> bool
        ensures { result ≡ has_process self.now process }
    {
        if self.is_whole {
            return true;
        }
        process as usize <= self.first_threads.len()
    }

    /// Whether it is known in which process a thread was born.
    pub fn has_home(&self, thread: u32) -> bool
        ensures { result ≡ has_home self.now thread }
    {
        if self.is_whole {
            return true;
        }
        thread as usize <= self.homes.len()
    }

    /// Whether all this is known of these processes.
    pub fn has_processes(&self, processes: &[u32]) -> bool
        ensures { result ≡ has_processes self.now processes.now }
    {
        for process in processes {
            if !self.has_process(*process) {
                return false;
            }
        }
        true
    }

    /// Whether it is known in which process the thread was born that an id names.
    pub fn knows_id(&self, id: ThreadId) -> bool
        ensures { result ≡ knows_id self.now id }
    {
        match thread_named(id) {
            None => true,
            Some(thread) => self.has_home(thread),
        }
    }

    /// The same of all threads that resumptions name.
    pub fn knows_named(&self, resumptions: &[Resumption]) -> bool
        ensures { result ≡ knows_named self.now resumptions.now }
    {
        for resumption in resumptions {
            if !self.knows_id(resumption.threads) {
                return false;
            }
        }
        true
    }

    /// The process that a thread was born in.
    pub fn home(&self, thread: u32) -> Option<u32>
        ensures kept { result ≡ flat (numbered self.now.homes thread) }
        ensures home { (moments : List Moment) → AreBirthsKnown self.now moments
            → has_home self.now thread ≡ true → result ≡ home_of moments thread }
    {
        kept_at(&self.homes, thread)
    }

    /// The thread that a process was born with.
    pub fn first_thread(&self, process: u32) -> Option<u32>
        ensures kept { result ≡ flat (numbered self.now.first_threads process) }
        ensures thread { (moments : List Moment) → AreBirthsKnown self.now moments
            → has_process self.now process ≡ true → result ≡ birth_thread moments process }
    {
        kept_at(&self.first_threads, process)
    }

    /// The number of the image of a process, 0 where it has none.
    pub fn image(&self, process: u32) -> u32
        ensures { (moments : List Moment) → AreBirthsKnown self.now moments
            → has_image self.now process ≡ true
            → result ≡ image_behind self.now.images moments process }
    {
        if process <= self.images {
            return process;
        }
        number_at(&self.image_numbers, process)
    }

    /// The numbers of the images of the processes that were noted, from 1 on, each 0 where it has
    /// none.
    pub fn image_numbers(&self) -> &[u32]
        ensures { result.now ≡ self.now.image_numbers }
    {
        &self.image_numbers
    }
}
