// What a person asks by gdb's command `monitor`.
ghost use Rattle.std.specs.Prelude.{◌≡◌, ◌++◌, ◌∷◌, [], IfOk, IsSome, None, OnOk, codes, false};
ghost use Rattle.std.specs.Prelude.{is_err, map, true};
ghost use Rattle.dos_world.specs.World.{live_process};
ghost use Rattle.group_walk.specs.Walks.{kinds_named};
ghost use Rattle.debug_session.specs.Answers.{answered_command, command_forms, current_world};
ghost use Rattle.debug_session.specs.Answers.{prints};
ghost use Rattle.debug_session.specs.Pages.{page_form, page_lines, pages_lines, process_rows};
ghost use Rattle.debug_session.specs.Positions.{Position, first_kind};
ghost use Rattle.debug_session.specs.Recordings.{Recording};
ghost use Rattle.debug_session.specs.Sessions.{Session as Told};
ghost use Rattle.debug_session.specs.Stops.{console_text};
ghost use Rattle.debug_session.specs.Tables.{end_lines, process_asked};
ghost use Rattle.debug_session.specs.Where.{console_line, goal_form, where_lines};
ghost use Rattle.debug_client.specs.Births.{has_home};
ghost use Rattle.debug_connection.specs.Keeping.{texts_of};
ghost use Rattle.debug_where.specs.Places.{IsHere, IsNextHere};
ghost use Rattle.recorded_walk.specs.Playbacks.{IsStartOf};
ghost use Rattle.debugger.specs.Standing.{HasAnswered, IsAsked, IsSame, IsSessionOf, here};
ghost use Rattle.debugger.specs.Asking.{lines_asked};

use crate::answers::Replies;
use crate::session::Session;
use debug_answers::{
    end_lines, page_lines, pages_lines, pipe_lines, process_lines, process_numbered,
    put_command_forms, put_console, put_goal_form, put_goal_line, put_page_form, sleeper_lines,
    thread_lines,
};
use debug_where::{Here, Next, where_lines};
use gdb_packets::commands::Command;
use group_walk::MoveKind;
use std::alloc::AllocError;

impl Session {
    /// The lines, one packet for the console each.
    fn put_lines(&self, replies: &mut Replies, lines: &[Vec<u8>]) -> Result<(), AllocError>
        ensures { OnOk result (texts_of replies.new.items
            ≡ texts_of replies.old.items ++ map console_text (texts_of lines.now)) }
    {
        for line in lines {
            let mut text = Vec::new(self.alloc);
            put_console(&mut text, line)?;
            replies.push(text)?;
        }
        Ok(())
    }

    /// The lines, and then that it was done.
    fn print(&self, replies: &mut Replies, lines: &[Vec<u8>]) -> Result<(), AllocError>
        ensures { OnOk result (texts_of replies.new.items ≡ texts_of replies.old.items
            ++ map console_text (texts_of lines.now) ++ codes "OK" ∷ []) }
    {
        self.put_lines(replies, lines)?;
        self.say(replies, "OK")
    }

    /// The same of one line.
    fn print_line(&self, replies: &mut Replies, line: &[u8]) -> Result<(), AllocError>
        ensures { OnOk result (texts_of replies.new.items
            ≡ texts_of replies.old.items ++ console_text line.now ∷ codes "OK" ∷ []) }
    {
        let mut text = Vec::new(self.alloc);
        put_console(&mut text, line)?;
        replies.push(text)?;
        self.say(replies, "OK")
    }

    /// What is said of `goto` itself.
    fn print_goal_form(&self, replies: &mut Replies) -> Result<(), AllocError>
        ensures { OnOk result (texts_of replies.new.items
            ≡ texts_of replies.old.items ++ console_text goal_form ∷ codes "OK" ∷ []) }
    {
        let mut line = Vec::new(self.alloc);
        put_goal_form(&mut line)?;
        self.print_line(replies, &line)
    }

    /// What is said of `page` itself.
    fn print_page_form(&self, replies: &mut Replies) -> Result<(), AllocError>
        ensures { OnOk result (texts_of replies.new.items
            ≡ texts_of replies.old.items ++ console_text page_form ∷ codes "OK" ∷ []) }
    {
        let mut line = Vec::new(self.alloc);
        put_page_form(&mut line)?;
        self.print_line(replies, &line)
    }

    /// What may be asked.
    fn print_command_forms(&self, replies: &mut Replies) -> Result<(), AllocError>
        ensures { OnOk result (texts_of replies.new.items ≡ texts_of replies.old.items
            ++ console_text (console_line command_forms) ∷ codes "OK" ∷ []) }
    {
        let mut line = Vec::new(self.alloc);
        put_command_forms(&mut line)?;
        self.print_line(replies, &line)
    }
}

impl Session {
    /// All who are born in the run are known, where it isn't known yet in which process the thread
    /// was born that is meant.
    fn know_meant(&mut self) -> Result<(), AllocError>
        requires { self.old.failed ≡ false }
        ensures known { OnOk result (has_home self.new.births self.new.client.meant ≡ true) }
        ensures moves { OnOk result (self.new.playback.moves ≡ self.old.playback.moves) }
        ensures same { IsSame self.old self.new }
        ensures failed { OnOk result (self.new.failed ≡ false) }
    {
        if self.births.has_home(self.client.meant()) {
            return Ok(());
        }
        self.know_all()
    }

    /// The process of the thread that is meant; 0 where it has none.
    fn process_meant(&self) -> u32
        requires running { self.now.failed ≡ false }
        requires known { has_home self.now.births self.now.client.meant ≡ true }
        ensures { (s : Told) → IsSessionOf self.now s → result ≡ process_asked s None }
    {
        self.births.home(self.client.meant()).unwrap_or(0)
    }

    /// The process that is asked about: the one that is named, else that of the thread that is
    /// meant.
    fn asked_process(&self, process: Option<u64>) -> u32
        requires running { self.now.failed ≡ false }
        requires known { has_home self.now.births self.now.client.meant ≡ true }
        ensures same { (s : Told) → IsSessionOf self.now s
            → live_process (current_world s) result
            ≡ live_process (current_world s) (process_asked s process) }
        ensures number { (s : Told) → IsSessionOf self.now s
            → IsSome (live_process (current_world s) (process_asked s process))
            → result ≡ process_asked s process }
    {
        match process {
            Some(process) => process_numbered(self.playback.state(), process),
            None => self.process_meant(),
        }
    }

    /// The processes of this moment, in lines.
    fn seen_processes(&self) -> Result<Vec<Vec<u8>>, AllocError>
        requires { self.now.failed ≡ false }
        ensures { IfOk result (λ lines. (s : Told) → IsSessionOf self.now s
            → texts_of lines.items ≡ process_rows s) }
    {
        process_lines(
            self.alloc,
            self.state(),
            &self.names,
            self.births.image_numbers(),
        )
    }

    /// The page that an address lies in.
    fn seen_page(&self, address: u32, process: Option<u64>) -> Result<Vec<Vec<u8>>, AllocError>
        requires running { self.now.failed ≡ false }
        requires known { has_home self.now.births self.now.client.meant ≡ true }
        ensures { IfOk result (λ lines. (s : Told) → IsSessionOf self.now s
            → texts_of lines.items ≡ page_lines s address process) }
    {
        page_lines(
            self.alloc,
            self.state(),
            self.asked_process(process),
            address,
        )
    }

    /// The pages of a process.
    fn seen_pages(&self, process: Option<u64>) -> Result<Vec<Vec<u8>>, AllocError>
        requires running { self.now.failed ≡ false }
        requires known { has_home self.now.births self.now.client.meant ≡ true }
        ensures { IfOk result (λ lines. (s : Told) → IsSessionOf self.now s
            → texts_of lines.items ≡ pages_lines s process) }
    {
        pages_lines(self.alloc, self.state(), self.asked_process(process))
    }

    /// The descriptors of a process.
    fn seen_ends(&self, process: Option<u64>) -> Result<Vec<Vec<u8>>, AllocError>
        requires running { self.now.failed ≡ false }
        requires known { has_home self.now.births self.now.client.meant ≡ true }
        ensures { IfOk result (λ lines. (s : Told) → IsSessionOf self.now s
            → texts_of lines.items ≡ end_lines s process) }
    {
        end_lines(self.alloc, self.state(), self.asked_process(process))
    }

    /// What is seen of this moment, in lines.
    fn seen_lines(&self, asked: Command) -> Result<Vec<Vec<u8>>, AllocError>
        requires running { self.now.failed ≡ false }
        requires known { has_home self.now.births self.now.client.meant ≡ true }
        ensures { IfOk result (λ lines. (s : Told) → IsSessionOf self.now s
            → texts_of lines.items ≡ lines_asked s asked) }
    {
        let state = self.state();
        match asked {
            Command::Threads => thread_lines(self.alloc, state),
            Command::Processes => self.seen_processes(),
            Command::Page { address, process } => self.seen_page(address, process),
            Command::Pages(process) => self.seen_pages(process),
            Command::Pipes => pipe_lines(self.alloc, state),
            Command::Ends(process) => self.seen_ends(process),
            Command::Sleepers => sleeper_lines(self.alloc, state),
            Command::Where => Ok(Vec::new(self.alloc)),
            Command::Goto { .. } => Ok(Vec::new(self.alloc)),
            Command::GotoForm => Ok(Vec::new(self.alloc)),
            Command::PageForm => Ok(Vec::new(self.alloc)),
            Command::Output => Ok(Vec::new(self.alloc)),
            Command::Other => Ok(Vec::new(self.alloc)),
        }
    }

    /// What is seen of this moment.
    fn print_seen(&mut self, replies: &mut Replies, asked: Command) -> Result<(), AllocError>
        requires { self.old.failed ≡ false }
        ensures { OnOk result (HasAnswered self.old self.new (texts_of replies.old.items)
            (texts_of replies.new.items) (λ s. prints s (lines_asked s asked))) }
    {
        self.know_meant()?;
        let lines = self.seen_lines(asked)?;
        self.print(replies, &lines)
    }
}

impl Session {
    /// The move that led here, where one did.
    fn last_kind(&mut self) -> Result<Option<MoveKind>, AllocError>
        requires { self.old.failed ≡ false }
        ensures kind { IfOk result (λ kind. (start : Position)
            → IsStartOf self.old.playback start
            → first_kind (here self.old start).past ≡ kinds_named kind) }
        ensures moves { OnOk result (self.new.playback.moves ≡ self.old.playback.moves) }
        ensures same { IsSame self.old self.new }
        ensures failed { self.new.failed ≡ is_err result }
    {
        let moves = self.playback.moves();
        if moves == 0 {
            return Ok(None);
        }
        self.go_to(moves - 1)?;
        let kind = self.next()?;
        self.go_to(moves)?;
        Ok(kind)
    }

    /// Why no move is next.
    fn none_next(&mut self) -> Result<Next, AllocError>
        requires { self.old.failed ≡ false }
        ensures next { IfOk result (λ next. (start : Position) (s : Told)
            → IsStartOf self.old.playback start → IsAsked self.old start s
            → first_kind (here self.old start).future ≡ None
            → IsNextHere next s.recording (here self.old start)) }
        ensures moves { OnOk result (self.new.playback.moves ≡ self.old.playback.moves) }
        ensures same { IsSame self.old self.new }
        ensures failed { self.new.failed ≡ is_err result }
    {
        match self.playback.ending() {
            Some(ending) => Ok(Next::HasEnded(ending)),
            None => {
                let found = self.misfit()?;
                Ok(Next::Misfits(found))
            }
        }
    }

    /// What comes next.
    fn next_here(&mut self) -> Result<Next, AllocError>
        requires { self.old.failed ≡ false }
        ensures next { IfOk result (λ next. (start : Position) (s : Told)
            → IsStartOf self.old.playback start → IsAsked self.old start s
            → IsNextHere next s.recording (here self.old start)) }
        ensures moves { OnOk result (self.new.playback.moves ≡ self.old.playback.moves) }
        ensures same { IsSame self.old self.new }
        ensures failed { self.new.failed ≡ is_err result }
    {
        let next = self.next()?;
        match next {
            Some(kind) => Ok(Next::Follows(kind)),
            None => self.none_next(),
        }
    }

    /// Where one stands, behind this move and in front of that.
    fn place(&self, last: Option<MoveKind>, next: Next) -> Here
        requires { self.now.failed ≡ false }
        ensures { (start : Position) (r : Recording) → IsStartOf self.now.playback start
            → r.entries ≡ self.now.playback.entries
            → first_kind (here self.now start).past ≡ kinds_named last
            → IsNextHere next r (here self.now start) → IsHere result r (here self.now start) }
    {
        Here {
            begun: self.playback.begun(),
            made: self.playback.made(),
            phase: self.playback.phase(),
            last,
            next,
            used: self.playback.used(),
            entries: self.playback.entries(),
        }
    }

    /// Where this moment is, in lines.
    fn where_here(&mut self) -> Result<Vec<Vec<u8>>, AllocError>
        requires { self.old.failed ≡ false }
        ensures lines { IfOk result (λ lines. (start : Position) (s : Told)
            → IsStartOf self.old.playback start → IsAsked self.old start s
            → texts_of lines.items ≡ where_lines s.recording (here self.old start)) }
        ensures moves { OnOk result (self.new.playback.moves ≡ self.old.playback.moves) }
        ensures same { IsSame self.old self.new }
        ensures failed { OnOk result (self.new.failed ≡ false) }
    {
        let last = self.last_kind()?;
        let next = self.next_here()?;
        let place = self.place(last, next);
        where_lines(self.alloc, &place)
    }

    /// Where this moment is.
    fn print_where(&mut self, replies: &mut Replies) -> Result<(), AllocError>
        requires { self.old.failed ≡ false }
        ensures { OnOk result (HasAnswered self.old self.new (texts_of replies.old.items)
            (texts_of replies.new.items) (λ s. answered_command s Command.Where)) }
    {
        let lines = self.where_here()?;
        self.print(replies, &lines)
    }

    /// The next resumption goes to this round and move.
    fn print_goal(&mut self, replies: &mut Replies, round: u64, made: u64) -> Result<(), AllocError>
        requires { self.old.failed ≡ false }
        ensures { OnOk result (HasAnswered self.old self.new (texts_of replies.old.items)
            (texts_of replies.new.items) (λ s. answered_command s (Command.Goto round made))) }
    {
        self.client.set_goal(round, made);
        let mut line = Vec::new(self.alloc);
        put_goal_line(&mut line, round, made)?;
        self.print_line(replies, &line)
    }

    /// All that was put up to this moment.
    fn print_output(&mut self, replies: &mut Replies) -> Result<(), AllocError>
        requires { self.old.failed ≡ false }
        ensures { OnOk result (HasAnswered self.old self.new (texts_of replies.old.items)
            (texts_of replies.new.items) (λ s. answered_command s Command.Output)) }
    {
        let mut puts = Vec::new(self.alloc);
        self.puts_so_far(&mut puts)?;
        self.tell_puts(&puts, self.playback.moves(), replies)?;
        self.say(replies, "OK")
    }

    /// What a person asks.
    pub(crate) fn answer_command(
        &mut self,
        replies: &mut Replies,
        asked: Command,
    ) -> Result<(), AllocError>
        requires { self.old.failed ≡ false }
        ensures { OnOk result (HasAnswered self.old self.new (texts_of replies.old.items)
            (texts_of replies.new.items) (λ s. answered_command s asked)) }
    {
        match asked {
            Command::Where => self.print_where(replies),
            Command::Goto { round, made } => self.print_goal(replies, round, made),
            Command::GotoForm => self.print_goal_form(replies),
            Command::PageForm => self.print_page_form(replies),
            Command::Other => self.print_command_forms(replies),
            Command::Output => self.print_output(replies),
            Command::Threads => self.print_seen(replies, Command::Threads),
            Command::Processes => self.print_seen(replies, Command::Processes),
            Command::Page { address, process } => {
                self.print_seen(replies, Command::Page { address, process })
            }
            Command::Pages(process) => self.print_seen(replies, Command::Pages(process)),
            Command::Pipes => self.print_seen(replies, Command::Pipes),
            Command::Ends(process) => self.print_seen(replies, Command::Ends(process)),
            Command::Sleepers => self.print_seen(replies, Command::Sleepers),
        }
    }
}
