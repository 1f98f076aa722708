// The line between a leader and a follower: a queue of notes, in order.
ghost use Rattle.std.specs.Prelude.{◌≡◌, ◌∷◌, ◌++◌, [], List, true, false, IfOk, IfErr, OnOk};
ghost use Rattle.std.specs.Prelude.{IfSome, IfNone};
ghost use Rattle.crossbeam_queue.specs.Passes.{view, IsPassOf, IsSamePass};
ghost use Rattle.twin_shims.specs.declared.note.Note.{Note};
ghost use Rattle.twin_shims.specs.Notes.{IsWithinMax};
ghost use Rattle.twin_shims.specs.Order.{hand, HasPushed, HasPopped};

use crate::bell::Bell;
use crate::note::Note;
use crossbeam_queue::RuledArrayQueue;
use crossbeam_queue::protocol::{Join, Lesson, Outcome, Protocol, Split};
use std::alloc::{AllocError, Global};
use std::collections::LinkedList;
use std::hint;
use std::sync::Wait;

/// How many notes the queue has places for.
const PLACES: usize = 64;

// What a pass may do (push, pop), what it has pushed and what it has popped. No value of it is
// made.
pub struct Hand {
    pub pushes: bool,
    pub pops: bool,
    pub pushed: LinkedList<Note>,
    pub popped: LinkedList<Note>,
}

pub struct InOrder;

impl Protocol<Note, Hand> for InOrder {
    ghost use Rattle.std.specs.Prelude.{true, []};
    ghost use Rattle.twin_shims.specs.Order.{hand, AreTakenInOrder};

    ghost holds = { AreTakenInOrder };

    ghost first = { hand true true [] [] };
}

struct Roles;

impl Split<Hand> for Roles {
    ghost use Rattle.std.specs.Prelude.{true, false, []};
    ghost use Rattle.twin_shims.specs.Order.{hand};

    ghost left = { λ v. hand true false v.pushed [] };

    ghost right = { λ v. hand false true [] v.popped };
}

impl Join<Hand> for Roles {
    ghost use Rattle.std.specs.Prelude.{true, false, []};
    ghost use Rattle.twin_shims.specs.Order.{hand};

    ghost both = { λ v w. hand true true v.pushed w.popped };

    ghost spent = { hand false false [] [] };
}

struct Pushed;

impl Outcome<Note, Hand> for Pushed {
    ghost then = { HasPushed };
}

struct Popped;

impl Outcome<Note, Hand> for Popped {
    ghost then = { HasPopped };
}

struct Total;

impl Lesson<Note, Hand> for Total {
    ghost fact = { λ v items. v.pushed ≡ v.popped ++ items };
}

/// What one side knows of the queue. It has no bytes.
pub type Pass = crossbeam_queue::Pass<Note, Hand>;

type Queue = RuledArrayQueue<Note, Hand, InOrder>;

/// The queue, and a bell for each side to wait by.
#[derive(Drop)]
pub struct Line {
    queue: Queue,
    pushed: Bell,
    popped: Bell,
    looks: u32,
}

impl Line {
    /// An empty line, whose sides look so often for a note, or for a place, before they sleep; and
    /// the passes of who pushes and of who pops.
    pub fn open(alloc: Global, looks: u32) -> Result<(Line, Pass, Pass), AllocError>
        ensures writer { IfOk result (λ r. IsPassOf r.0.queue r.1
            × (view r.1 ≡ hand true false [] [])) }
        ensures reader { IfOk result (λ r. IsPassOf r.0.queue r.2
            × (view r.2 ≡ hand false true [] [])) }
    {
        let (queue, mut writer) = Queue::ruled(alloc, PLACES)?;
        let reader = queue.another::<Roles>(&mut writer);
        let line = Line {
            queue,
            pushed: Bell::new(),
            popped: Bell::new(),
            looks,
        };
        Ok((line, writer, reader))
    }

    // One attempt.
    fn try_push(&self, pass: &mut Pass, note: Note) -> Result<(), Note>
        requires pass { IsPassOf self.now.queue pass.old }
        requires pushes { (view pass.old).pushes ≡ true }
        requires fits { IsWithinMax note }
        ensures pass { IsSamePass pass.old pass.new }
        ensures pushed { OnOk result (HasPushed (view pass.old) note (view pass.new)) }
        ensures full { IfErr result (λ back. (back ≡ note) × (view pass.new ≡ view pass.old)) }
    {
        self.queue.try_push_as::<Pushed>(pass, note)?;
        self.pushed.ring();
        Ok(())
    }

    // One attempt, and so many more.
    fn push_within(&self, pass: &mut Pass, mut note: Note, more: u32) -> Result<(), Note>
        requires pass { IsPassOf self.now.queue pass.old }
        requires pushes { (view pass.old).pushes ≡ true }
        requires fits { IsWithinMax note }
        ensures pass { IsSamePass pass.old pass.new }
        ensures pushed { OnOk result (HasPushed (view pass.old) note (view pass.new)) }
        ensures full { IfErr result (λ back. (back ≡ note) × (view pass.new ≡ view pass.old)) }
    {
        for _ in 0..more {
            match self.try_push(pass, note) {
                Ok(()) => return Ok(()),
                Err(back) => note = back,
            }
            hint::spin_loop();
        }
        self.try_push(pass, note)
    }

    // Looks for a place, and sleeps where there is none.
    fn push_or_sleep<R: Wait>(&self, rt: &R, pass: &mut Pass, note: Note) -> Result<(), Note>
        requires pass { IsPassOf self.now.queue pass.old }
        requires pushes { (view pass.old).pushes ≡ true }
        requires fits { IsWithinMax note }
        ensures pass { IsSamePass pass.old pass.new }
        ensures pushed { OnOk result (HasPushed (view pass.old) note (view pass.new)) }
        ensures full { IfErr result (λ back. (back ≡ note) × (view pass.new ≡ view pass.old)) }
    {
        match self.push_within(pass, note, self.looks) {
            Ok(()) => Ok(()),
            Err(note) => {
                self.popped.listen();
                match self.try_push(pass, note) {
                    Ok(()) => Ok(()),
                    Err(note) => {
                        self.popped.sleep(rt);
                        Err(note)
                    }
                }
            }
        }
    }

    /// Pushes a note, and waits for a place.
    pub(crate) fn push<R: Wait>(&self, rt: &R, pass: &mut Pass, mut note: Note)
        requires pass { IsPassOf self.now.queue pass.old }
        requires pushes { (view pass.old).pushes ≡ true }
        requires fits { IsWithinMax note }
        ensures pass { IsSamePass pass.old pass.new }
        ensures pushed { HasPushed (view pass.old) note (view pass.new) }
    {
        for _ in rt.forever() {
            match self.push_or_sleep(rt, pass, note) {
                Ok(()) => return,
                Err(back) => note = back,
            }
        }
        unreachable!()
    }

    // One attempt.
    fn try_pop(&self, pass: &mut Pass) -> Option<Note>
        requires pass { IsPassOf self.now.queue pass.old }
        requires pops { (view pass.old).pops ≡ true }
        ensures pass { IsSamePass pass.old pass.new }
        ensures popped { IfSome result (λ note. HasPopped (view pass.old) note (view pass.new)) }
        ensures empty { IfNone result (view pass.new ≡ view pass.old) }
    {
        let note = self.queue.try_pop_as::<Popped>(pass)?;
        self.popped.ring();
        Some(note)
    }

    // One attempt, and so many more.
    fn pop_within(&self, pass: &mut Pass, more: u32) -> Option<Note>
        requires pass { IsPassOf self.now.queue pass.old }
        requires pops { (view pass.old).pops ≡ true }
        ensures pass { IsSamePass pass.old pass.new }
        ensures popped { IfSome result (λ note. HasPopped (view pass.old) note (view pass.new)) }
        ensures empty { IfNone result (view pass.new ≡ view pass.old) }
    {
        for _ in 0..more {
            if let Some(note) = self.try_pop(pass) {
                return Some(note);
            }
            hint::spin_loop();
        }
        self.try_pop(pass)
    }

    // Looks for a note, and sleeps where there is none.
    fn pop_or_sleep<R: Wait>(&self, rt: &R, pass: &mut Pass) -> Option<Note>
        requires pass { IsPassOf self.now.queue pass.old }
        requires pops { (view pass.old).pops ≡ true }
        ensures pass { IsSamePass pass.old pass.new }
        ensures popped { IfSome result (λ note. HasPopped (view pass.old) note (view pass.new)) }
        ensures empty { IfNone result (view pass.new ≡ view pass.old) }
    {
        if let Some(note) = self.pop_within(pass, self.looks) {
            return Some(note);
        }
        self.pushed.listen();
        if let Some(note) = self.try_pop(pass) {
            return Some(note);
        }
        self.pushed.sleep(rt);
        None
    }

    /// The oldest note, which is waited for.
    pub(crate) fn pop<R: Wait>(&self, rt: &R, pass: &mut Pass) -> Note
        requires pass { IsPassOf self.now.queue pass.old }
        requires pops { (view pass.old).pops ≡ true }
        ensures pass { IsSamePass pass.old pass.new }
        ensures popped { HasPopped (view pass.old) result (view pass.new) }
    {
        for _ in rt.forever() {
            if let Some(note) = self.pop_or_sleep(rt, pass) {
                return note;
            }
        }
        unreachable!()
    }

    /// What was pushed is what was popped, and then what the line still holds.
    pub(crate) fn compare(&self, mut writer: Pass, reader: Pass)
        requires writer { IsPassOf self.now.queue writer × ((view writer).pushes ≡ true) }
        requires reader { IsPassOf self.now.queue reader × ((view reader).pops ≡ true) }
        ensures { (held : List Note) × ((view writer).pushed ≡ (view reader).popped ++ held) }
    {
        self.queue.absorb::<Roles>(&mut writer, reader);
        self.queue.learn_as::<Total>(&mut writer);
    }
}
