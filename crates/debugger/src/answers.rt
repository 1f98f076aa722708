// What is answered to a packet.
ghost use Rattle.std.specs.Prelude.{◌≡◌, ◌≤◌, ◌++◌, ◌∷◌, [], ℕ, List, codes, length, IfOk, OnOk};
ghost use Rattle.std.specs.Prelude.{true, false, is_some, Some, None, MatchOption};
ghost use Rattle.std.specs.Prelude.{unwrap_or};
ghost use Rattle.dos_world.specs.Numbered.{numbered};
ghost use Rattle.debug_session.specs.Answers.{all_registers_told, answered_packet};
ghost use Rattle.debug_session.specs.Answers.{answered_plain, current_told, features_text, means};
ghost use Rattle.debug_session.specs.Answers.{actions_in, is_current_listed, one_register_told};
ghost use Rattle.debug_session.specs.Answers.{stretch_told, current_world, process_let_go};
ghost use Rattle.debug_session.specs.Current.{named_current};
ghost use Rattle.debug_session.specs.Description.{description_text};
ghost use Rattle.debug_session.specs.Files.{exec_file_told, file_opened, file_piece_told};
ghost use Rattle.debug_session.specs.Files.{file_status_told, is_known, known_name, name_told};
ghost use Rattle.debug_session.specs.Pages.{image_name};
ghost use Rattle.debug_client.specs.Births.{has_home, knows_id};
ghost use Rattle.debug_client.specs.Clients.{done_text};
ghost use Rattle.dos_world.specs.World.{process_at};
ghost use Rattle.kernel_calls.specs.StateWorld.{sent, world_of};
ghost use Rattle.debug_session.specs.Actions.{thread_named};
ghost use Rattle.debug_session.specs.Lists.{listed_pairs, part_told, threads_text, threads_told};
ghost use Rattle.debug_session.specs.Resuming.{continue_actions, continues_back, replies_one};
ghost use Rattle.debug_session.specs.Resuming.{resumes, step_actions, steps_back};
ghost use Rattle.debug_session.specs.Setting.{inserts, removes};
ghost use Rattle.debug_session.specs.Sessions.{Session as Told};
ghost use Rattle.debug_session.specs.Stops.{pair_text};
ghost use Rattle.debug_connection.specs.Keeping.{texts_of};
ghost use Rattle.debugger.specs.Standing.{HasAnswered, IsSame, HasSaid, IsSessionOf};

use crate::resuming::Direction;
use crate::session::Session;
use debug_answers::{
    description_text, is_listed, put_current, put_features, put_file_opened, put_file_piece,
    put_file_status, put_memory, put_name_told, put_part, put_register, put_registers, put_stopped,
    put_text, put_thread_list, put_threads,
};
use debug_client::thread_named;
use debug_connection::Answering;
use gdb_packets::ids::ThreadId;
use gdb_packets::openings::Plain;
use gdb_packets::packets::{Packet, Point, Stretch, read_packet};
use gdb_packets::resumptions::{Resumption, read_resumptions};
use kernel_calls::State;
use recorded_walk::laws::histories_start;
use std::alloc::{AllocError, Global};

// how many bytes `vCont` has
const NAME: usize = 5;

/// What the answers to one packet are, as far as they are there.
pub(crate) type Replies = Vec<Vec<u8>>;

// the actions that stand behind `vCont`
fn actions_in(alloc: Global, text: &[u8]) -> Result<Vec<Resumption>, AllocError>
    ensures { IfOk result (λ actions. actions.items ≡ actions_in text.now) }
{
    let (_, rest) = text.split_at(NAME.min(text.len()));
    match read_resumptions(alloc, rest)? {
        Some(actions) => Ok(actions),
        None => Ok(Vec::new(alloc)),
    }
}

// the name with this number, from 1 on
fn name_numbered(names: &[Vec<u8>], image: u32) -> Option<&[u8]>
    ensures { MatchOption result (numbered (texts_of names.now) image ≡ None)
        (λ name. numbered (texts_of names.now) image ≡ Some name.now) }
{
    if image == 0 {
        return None;
    }
    match names.get(image as usize - 1) {
        None => None,
        Some(name) => Some(name.as_slice()),
    }
}

// done, or refused
fn done_text(done: bool) -> &'static str
    ensures { result.now ≡ done_text done }
{
    if done { "OK" } else { "E01" }
}

// whether the number of a process was given
fn is_given(state: &State, process: u32) -> bool
    ensures { (q : ℕ) (output error : List ℕ)
        → result ≡ is_some (process_at (sent output error (world_of q state.now)) process) }
{
    if process == 0 {
        return false;
    }
    process <= state.table.processes()
}

impl Session {
    /// A text alone.
    pub(crate) fn say(&self, replies: &mut Replies, text: &str) -> Result<(), AllocError>
        ensures { OnOk result (texts_of replies.new.items
            ≡ texts_of replies.old.items ++ text.now ∷ []) }
    {
        replies.push(Vec::from_slice(self.alloc, text.as_bytes())?)?;
        Ok(())
    }

    /// The current process and thread.
    fn current(&self) -> (u32, u32)
        ensures { result ≡ (self.now.client.process, self.now.client.thread) }
    {
        (self.client.process(), self.client.thread())
    }

    /// Whether the current thread is one of those that are listed.
    fn is_current_listed(&self) -> Result<bool, AllocError>
        requires { self.now.failed ≡ false }
        ensures { IfOk result (λ is_listed. (s : Told) → IsSessionOf self.now s
            → is_listed ≡ is_current_listed s) }
    {
        let listed = self.client.listed(self.alloc, &self.births, self.state())?;
        Ok(is_listed(&listed, self.client.thread()))
    }

    fn say_stopped(&self, replies: &mut Replies) -> Result<(), AllocError>
        requires { self.now.failed ≡ false }
        ensures { OnOk result (HasSaid self.now (texts_of replies.old.items)
            (texts_of replies.new.items) (λ s. current_told s)) }
    {
        let mut text = Vec::new(self.alloc);
        put_stopped(&mut text, self.current())?;
        replies.push(text)?;
        Ok(())
    }

    fn say_current(&self, replies: &mut Replies) -> Result<(), AllocError>
        requires { self.now.failed ≡ false }
        ensures { OnOk result (HasSaid self.now (texts_of replies.old.items)
            (texts_of replies.new.items) (λ s. codes "QC" ++ pair_text (s.process, s.thread))) }
    {
        let mut text = Vec::new(self.alloc);
        put_current(&mut text, self.current())?;
        replies.push(text)?;
        Ok(())
    }

    fn say_threads(&self, replies: &mut Replies) -> Result<(), AllocError>
        requires { self.now.failed ≡ false }
        ensures { OnOk result (HasSaid self.now (texts_of replies.old.items)
            (texts_of replies.new.items) (λ s. threads_told s)) }
    {
        let listed = self.client.listed(self.alloc, &self.births, self.state())?;
        let mut text = Vec::new(self.alloc);
        put_threads(&mut text, &listed)?;
        replies.push(text)?;
        Ok(())
    }

    fn say_registers(&self, replies: &mut Replies) -> Result<(), AllocError>
        requires { self.now.failed ≡ false }
        ensures { OnOk result (HasSaid self.now (texts_of replies.old.items)
            (texts_of replies.new.items) (λ s. all_registers_told s)) }
    {
        let is_listed = self.is_current_listed()?;
        let mut text = Vec::new(self.alloc);
        put_registers(&mut text, self.state(), is_listed, self.client.thread())?;
        replies.push(text)?;
        Ok(())
    }

    fn say_register(&self, replies: &mut Replies, number: u32) -> Result<(), AllocError>
        requires { self.now.failed ≡ false }
        ensures { OnOk result (HasSaid self.now (texts_of replies.old.items)
            (texts_of replies.new.items) (λ s. one_register_told s number)) }
    {
        let is_listed = self.is_current_listed()?;
        let mut text = Vec::new(self.alloc);
        put_register(
            &mut text,
            self.state(),
            is_listed,
            self.client.thread(),
            number,
        )?;
        replies.push(text)?;
        Ok(())
    }

    fn say_memory(&self, replies: &mut Replies, part: Stretch) -> Result<(), AllocError>
        requires { self.now.failed ≡ false }
        ensures { OnOk result (HasSaid self.now (texts_of replies.old.items)
            (texts_of replies.new.items) (λ s. stretch_told s part)) }
    {
        let mut text = Vec::new(self.alloc);
        put_memory(
            &mut text,
            self.state(),
            self.client.process(),
            part.from,
            part.length,
        )?;
        replies.push(text)?;
        Ok(())
    }

    fn say_features(&self, replies: &mut Replies, is_told_forks: bool) -> Result<(), AllocError>
        ensures { OnOk result (texts_of replies.new.items
            ≡ texts_of replies.old.items ++ features_text is_told_forks ∷ []) }
    {
        let mut text = Vec::new(self.alloc);
        put_features(&mut text, is_told_forks)?;
        replies.push(text)?;
        Ok(())
    }

    fn say_description(&self, replies: &mut Replies, part: Stretch) -> Result<(), AllocError>
        requires { self.now.failed ≡ false }
        ensures { OnOk result (HasSaid self.now (texts_of replies.old.items)
            (texts_of replies.new.items) (λ s. part_told description_text part)) }
    {
        let mut text = Vec::new(self.alloc);
        put_part(&mut text, description_text().as_bytes(), part)?;
        replies.push(text)?;
        Ok(())
    }

    fn say_thread_list(&self, replies: &mut Replies, part: Stretch) -> Result<(), AllocError>
        requires { self.now.failed ≡ false }
        ensures { OnOk result (HasSaid self.now (texts_of replies.old.items)
            (texts_of replies.new.items)
            (λ s. part_told (threads_text (current_world s) (listed_pairs s)) part)) }
    {
        let state = self.state();
        let listed = self.client.listed(self.alloc, &self.births, state)?;
        let mut whole = Vec::new(self.alloc);
        put_thread_list(&mut whole, state, &listed)?;
        let mut text = Vec::new(self.alloc);
        put_part(&mut text, &whole, part)?;
        replies.push(text)?;
        Ok(())
    }

    /// A listed thread is meant from now on.
    fn mean(&mut self, replies: &mut Replies, id: ThreadId) -> Result<(), AllocError>
        requires { self.old.failed ≡ false }
        ensures { OnOk result (HasAnswered self.old self.new (texts_of replies.old.items)
            (texts_of replies.new.items) (λ s. means s (thread_named id))) }
    {
        match thread_named(id) {
            None => self.say(replies, "E01"),
            Some(thread) => self.mean_thread(replies, thread),
        }
    }

    fn mean_thread(&mut self, replies: &mut Replies, thread: u32) -> Result<(), AllocError>
        requires { self.old.failed ≡ false }
        ensures { OnOk result (HasAnswered self.old self.new (texts_of replies.old.items)
            (texts_of replies.new.items) (λ s. means s (Some thread))) }
    {
        histories_start();
        let listed = self.client.listed(self.alloc, &self.births, self.state())?;
        let done = self.client.mean(Some(thread), is_listed(&listed, thread));
        self.say(replies, done_text(done))
    }

    /// All who are born in the run are known, where it isn't known yet in which process the current
    /// thread was born, or the one that is named.
    fn know_current(&mut self, id: ThreadId) -> Result<(), AllocError>
        requires { self.old.failed ≡ false }
        ensures named { OnOk result (knows_id self.new.births id ≡ true) }
        ensures current { OnOk result (has_home self.new.births self.new.client.thread ≡ true) }
        ensures moves { OnOk result (self.new.playback.moves ≡ self.old.playback.moves) }
        ensures same { IsSame self.old self.new }
        ensures failed { OnOk result (self.new.failed ≡ false) }
    {
        if self.births.knows_id(id) {
            if self.births.has_home(self.client.thread()) {
                return Ok(());
            }
        }
        self.know_all()
    }

    /// The current process and thread are named.
    fn name_current(&mut self, replies: &mut Replies, id: ThreadId) -> Result<(), AllocError>
        requires { self.old.failed ≡ false }
        ensures { OnOk result (HasAnswered self.old self.new (texts_of replies.old.items)
            (texts_of replies.new.items) (λ s. replies_one (named_current s id) (codes "OK"))) }
    {
        histories_start();
        self.know_current(id)?;
        self.client
            .name_current(&self.births, self.playback.state(), id);
        self.say(replies, "OK")
    }

    fn resume_text(&mut self, replies: &mut Replies, text: &[u8]) -> Result<(), AllocError>
        requires { self.old.failed ≡ false }
        ensures { OnOk result (HasAnswered self.old self.new (texts_of replies.old.items)
            (texts_of replies.new.items) (λ s. resumes s (actions_in text.now))) }
    {
        let actions = actions_in(self.alloc, text)?;
        self.resume(&actions, Direction::Forwards, replies)
    }

    /// `c`
    fn continue_on(&mut self, replies: &mut Replies) -> Result<(), AllocError>
        requires { self.old.failed ≡ false }
        ensures { OnOk result (HasAnswered self.old self.new (texts_of replies.old.items)
            (texts_of replies.new.items) (λ s. resumes s (continue_actions s))) }
    {
        let actions = self.client.continue_actions();
        self.resume(&actions, Direction::Forwards, replies)
    }

    /// `s`
    fn step_on(&mut self, replies: &mut Replies) -> Result<(), AllocError>
        requires { self.old.failed ≡ false }
        ensures { OnOk result (HasAnswered self.old self.new (texts_of replies.old.items)
            (texts_of replies.new.items) (λ s. resumes s (step_actions s))) }
    {
        let actions = self.client.step_actions();
        self.resume(&actions, Direction::Forwards, replies)
    }

    /// `bc`
    fn continue_back(&mut self, replies: &mut Replies) -> Result<(), AllocError>
        requires { self.old.failed ≡ false }
        ensures { OnOk result (HasAnswered self.old self.new (texts_of replies.old.items)
            (texts_of replies.new.items) (λ s. continues_back s)) }
    {
        let actions = self.client.continue_actions();
        self.resume(&actions, Direction::Backwards(None), replies)
    }

    /// `bs`
    fn step_back(&mut self, replies: &mut Replies) -> Result<(), AllocError>
        requires { self.old.failed ≡ false }
        ensures { OnOk result (HasAnswered self.old self.new (texts_of replies.old.items)
            (texts_of replies.new.items) (λ s. steps_back s)) }
    {
        let actions = self.client.step_actions();
        let stepped = self.client.thread_stepped();
        self.resume(&actions, Direction::Backwards(Some(stepped)), replies)
    }

    fn answer_plain(&mut self, replies: &mut Replies, name: Plain) -> Result<(), AllocError>
        requires { self.old.failed ≡ false }
        ensures { OnOk result (HasAnswered self.old self.new (texts_of replies.old.items)
            (texts_of replies.new.items) (λ s. answered_plain s name)) }
    {
        match name {
            Plain::NoAcknowledgement => self.say(replies, "OK"),
            Plain::StopReason => self.say_stopped(replies),
            Plain::CurrentThread => self.say_current(replies),
            Plain::FirstThreads => self.say_threads(replies),
            Plain::NextThreads => self.say(replies, "l"),
            Plain::Registers => self.say_registers(replies),
            Plain::Continue => self.continue_on(replies),
            Plain::Step => self.step_on(replies),
            Plain::BackContinue => self.continue_back(replies),
            Plain::BackStep => self.step_back(replies),
            Plain::Kill => Ok(()),
        }
    }

    fn say_name(
        &self,
        replies: &mut Replies,
        process: Option<u32>,
        part: Stretch,
    ) -> Result<(), AllocError>
        requires { self.now.failed ≡ false }
        ensures { OnOk result (HasSaid self.now (texts_of replies.old.items)
            (texts_of replies.new.items) (λ s. exec_file_told s process part)) }
    {
        let process = self.process_or_current(process);
        let mut text = Vec::new(self.alloc);
        self.put_known_name(&mut text, process, part)?;
        replies.push(text)?;
        Ok(())
    }

    /// The current process where none is named.
    fn process_or_current(&self, process: Option<u32>) -> u32
        ensures { result ≡ unwrap_or process self.now.client.process }
    {
        match process {
            Some(process) => process,
            None => self.client.process(),
        }
    }

    /// A part of the name of the file of a process's image; an error where it has none, or isn't
    /// known.
    fn put_known_name(
        &self,
        out: &mut Vec<u8>,
        process: u32,
        part: Stretch,
    ) -> Result<(), AllocError>
        requires { self.now.failed ≡ false }
        ensures { (s : Told) → IsSessionOf self.now s → OnOk result (out.new.items
            ≡ out.old.items ++ name_told (known_name s process) part) }
    {
        if self.is_known(process) {
            return self.put_name(out, process, part);
        }
        put_text(out, "E01")
    }

    /// The same of a process whose image is known, where it has one.
    fn put_name(&self, out: &mut Vec<u8>, process: u32, part: Stretch) -> Result<(), AllocError>
        requires running { self.now.failed ≡ false }
        requires known { (s : Told) → IsSessionOf self.now s → is_known s process ≡ true }
        ensures { (s : Told) → IsSessionOf self.now s → OnOk result (out.new.items
            ≡ out.old.items ++ name_told (image_name s process) part) }
    {
        match name_numbered(&self.names, self.births.image(process)) {
            None => put_text(out, "E01"),
            Some(name) => put_name_told(self.alloc, out, name, part),
        }
    }

    /// The process is shown, or was born by this moment.
    fn is_known(&self, process: u32) -> bool
        requires { self.now.failed ≡ false }
        ensures { (s : Told) → IsSessionOf self.now s → result ≡ is_known s process }
    {
        let state = self.state();
        if self.client.is_shown(state, process) {
            return true;
        }
        is_given(state, process)
    }

    fn open_file(&self, replies: &mut Replies, text: &[u8]) -> Result<(), AllocError>
        requires running { self.now.failed ≡ false }
        requires text { length text.now ≤ 16384 }
        ensures { OnOk result (HasSaid self.now (texts_of replies.old.items)
            (texts_of replies.new.items) (λ s. file_opened s text.now)) }
    {
        let mut reply = Vec::new(self.alloc);
        put_file_opened(&mut reply, &self.names, text)?;
        replies.push(reply)?;
        Ok(())
    }

    fn say_file_status(&self, replies: &mut Replies, file: u32) -> Result<(), AllocError>
        requires { self.now.failed ≡ false }
        ensures { OnOk result (HasSaid self.now (texts_of replies.old.items)
            (texts_of replies.new.items) (λ s. file_status_told s file)) }
    {
        let mut reply = Vec::new(self.alloc);
        put_file_status(&mut reply, &self.files, file)?;
        replies.push(reply)?;
        Ok(())
    }

    fn say_file_piece(
        &self,
        replies: &mut Replies,
        file: u32,
        part: Stretch,
    ) -> Result<(), AllocError>
        requires { self.now.failed ≡ false }
        ensures { OnOk result (HasSaid self.now (texts_of replies.old.items)
            (texts_of replies.new.items) (λ s. file_piece_told s file part)) }
    {
        let mut reply = Vec::new(self.alloc);
        put_file_piece(&mut reply, &self.files, file, part)?;
        replies.push(reply)?;
        Ok(())
    }

    /// Whether the client is told of forks; what the server can.
    fn tell_forks(&mut self, replies: &mut Replies, forks: bool) -> Result<(), AllocError>
        requires { self.old.failed ≡ false }
        ensures { OnOk result (HasAnswered self.old self.new (texts_of replies.old.items)
            (texts_of replies.new.items)
            (λ s. answered_packet s [] (Packet.Supported forks))) }
    {
        self.client.set_told_forks(forks);
        self.say_features(replies, forks)
    }

    fn name_resumed(&mut self, replies: &mut Replies, id: ThreadId) -> Result<(), AllocError>
        requires { self.old.failed ≡ false }
        ensures { OnOk result (HasAnswered self.old self.new (texts_of replies.old.items)
            (texts_of replies.new.items)
            (λ s. answered_packet s [] (Packet.ResumedThread id))) }
    {
        self.client.set_resumed(id);
        self.say(replies, "OK")
    }

    fn insert(&mut self, replies: &mut Replies, point: Point) -> Result<(), AllocError>
        requires { self.old.failed ≡ false }
        ensures { OnOk result (HasAnswered self.old self.new (texts_of replies.old.items)
            (texts_of replies.new.items) (λ s. inserts s point)) }
    {
        histories_start();
        let done = self.client.insert(self.alloc, point)?;
        self.say(replies, done_text(done))
    }

    fn remove(&mut self, replies: &mut Replies, point: Point) -> Result<(), AllocError>
        requires { self.old.failed ≡ false }
        ensures { OnOk result (HasAnswered self.old self.new (texts_of replies.old.items)
            (texts_of replies.new.items) (λ s. removes s point)) }
    {
        histories_start();
        self.client.remove(point);
        self.say(replies, "OK")
    }

    /// A process isn't shown any more, where one is named.
    fn let_go(&mut self, replies: &mut Replies, process: Option<u32>) -> Result<(), AllocError>
        requires { self.old.failed ≡ false }
        ensures { OnOk result (HasAnswered self.old self.new (texts_of replies.old.items)
            (texts_of replies.new.items)
            (λ s. replies_one (process_let_go s process) (codes "OK"))) }
    {
        histories_start();
        self.client.let_go(process)?;
        self.say(replies, "OK")
    }

    fn answer_packet(
        &mut self,
        replies: &mut Replies,
        text: &[u8],
        packet: Packet,
    ) -> Result<(), AllocError>
        requires running { self.old.failed ≡ false }
        requires text { length text.now ≤ 16384 }
        ensures { OnOk result (HasAnswered self.old self.new (texts_of replies.old.items)
            (texts_of replies.new.items) (λ s. answered_packet s text.now packet)) }
    {
        match packet {
            Packet::Alone(name) => self.answer_plain(replies, name),
            Packet::Attached(_) => self.say(replies, "1"),
            Packet::Alive(id) => self.mean(replies, id),
            Packet::GeneralThread(id) => self.name_current(replies, id),
            Packet::Register(number) => self.say_register(replies, number),
            Packet::Memory(part) => self.say_memory(replies, part),
            Packet::Write => { self.say(replies, "E.nothing in a recorded run can be changed") }
            Packet::ResumeForms => self.say(replies, "vCont;c;C;s;S;r"),
            Packet::Resume => self.resume_text(replies, text),
            Packet::Description(part) => self.say_description(replies, part),
            Packet::SetFileSystem(_) => self.say(replies, "F0"),
            Packet::CloseFile(_) => self.say(replies, "F0"),
            Packet::Threads(part) => self.say_thread_list(replies, part),
            Packet::Monitor(asked) => self.answer_command(replies, asked),
            Packet::Malformed => self.say(replies, "E01"),
            Packet::Unknown => self.say(replies, ""),
            Packet::ExecFile { process, part } => self.say_name(replies, process, part),
            Packet::OpenFile => self.open_file(replies, text),
            Packet::FileStatus(file) => self.say_file_status(replies, file),
            Packet::ReadFile { file, part } => self.say_file_piece(replies, file, part),
            Packet::Supported(forks) => self.tell_forks(replies, forks),
            Packet::ResumedThread(id) => self.name_resumed(replies, id),
            Packet::Insert(point) => self.insert(replies, point),
            Packet::Remove(point) => self.remove(replies, point),
            Packet::Detach(process) => self.let_go(replies, process),
            Packet::KillProcess(process) => self.let_go(replies, Some(process)),
        }
    }
}

impl Answering for Session {
    ghost use Rattle.std.specs.Prelude.{◌≡◌, false};
    ghost use Rattle.debugger.specs.Standing.{IsSessionOf};

    ghost shows = { λ self s. IsSessionOf self s };

    fn answer(&mut self, text: &[u8]) -> Result<Vec<Vec<u8>>, AllocError> {
        if self.failed {
            return Err(AllocError);
        }
        let mut replies = Vec::new(self.alloc);
        self.answer_packet(&mut replies, text, read_packet(text))?;
        Ok(replies)
    }
}
