// A line answered.
ghost use Rattle.std.specs.Prelude.{◌≡◌, List, ℕ, ◌++◌, Some, take};
ghost use Rattle.decimal.specs.Written.{HasRoom, Wrote};
ghost use Rattle.ring.specs.Departure.{departure};
ghost use Rattle.ring.specs.Fresh.{fresh, settings_of};
ghost use Rattle.ring.specs.Tick.{tick};
ghost use Rattle.script.specs.Answering.{continued, first_line, later_line, outcome, refused_line, replied};
ghost use Rattle.script.specs.Done.{Did, Said};
ghost use Rattle.script.specs.Feeding.{room};
ghost use Rattle.script_answers.specs.Output.{answer_of, state_text, word_of};

use crate::{Session, Stage};
use decimal::Output;
use refusals::Refusal;
use ring::State;
use script_answers::{Accepted, put_answer, put_bad, put_state};
use script_command::Command;
use units::{Bytes, Micros};

impl Session {
    // A call has returned this answer, and left the state as it is.
    fn reply(&mut self, answer: Result<Accepted, Refusal>, out: &mut Output<'_>)
        requires { HasRoom out.old room }
        ensures session { self.new ≡ continued self.old self.old.state }
        ensures text { Wrote room out.old out.new (word_of (answer_of answer) ++ state_text self.old.state) }
    {
        put_answer(answer, out);
        put_state(self.state, out);
        self.stage = Stage::Running;
        self.line = self.line.saturating_add(1);
    }

    fn bad_line(&mut self, out: &mut Output<'_>)
        requires { HasRoom out.old room }
        ensures { (handles sizes : List ℕ) →
            Said (refused_line self.old handles sizes) self.new out.old out.new }
    {
        put_bad(self.line, out);
        self.stage = Stage::Ended;
    }

    fn start_line(&mut self, target: u32, buffer: u32, slots: u32, out: &mut Output<'_>)
        requires { HasRoom out.old room }
        ensures { (handles sizes : List ℕ) →
            Said (replied self.old (fresh (settings_of target buffer slots 0) 0) handles sizes) self.new out.old out.new }
    {
        let made = State::fresh(
            Micros(target as u64),
            Bytes(buffer as u64),
            slots as u64,
            0,
            Micros(0),
        );
        self.state = made.state;
        self.reply(made.accepted.map(|()| Accepted::Made), out);
    }

    fn tick_line(&mut self, clock: u64, out: &mut Output<'_>)
        requires { HasRoom out.old room }
        ensures { (handles sizes : List ℕ) →
            Said (replied self.old (tick self.old.state clock) handles sizes) self.new out.old out.new }
    {
        let ticked = self.state.tick(Micros(clock));
        self.reply(ticked.map(|()| Accepted::Ticked), out);
    }

    fn departure_line(&mut self, handles: &[u32], sizes: &[u32], clock: u64, out: &mut Output<'_>)
        requires { HasRoom out.old room }
        ensures { let slots = self.old.state.settings.slots in
            let a = departure self.old.state (take slots handles.now) (take slots sizes.now) clock in
            Said (replied self.old a handles.now sizes.now) self.new out.old out.new }
    {
        let slots = self.state.settings.slots as usize;
        let n = slots.min(handles.len());
        let m = slots.min(sizes.len());
        let departed = self
            .state
            .departure(&handles[..n], &sizes[..m], Micros(clock));
        let answer = departed.map(|packet| Accepted::Departed {
            handle: packet.handle,
        });
        self.reply(answer, out);
    }

    fn arrival_line(
        &mut self,
        handles: &mut [u32],
        sizes: &mut [u32],
        clock: u64,
        handle: u32,
        size: u32,
        ecn: bool,
        u: u32,
        out: &mut Output<'_>,
    )
        requires { HasRoom out.old room }
        ensures { Did (later_line self.old handles.old sizes.old (Some (Command.Arrival clock handle size ecn u)))
            self.new handles.new sizes.new out.old out.new }
    {
        let slots = self.state.settings.slots as usize;
        let n = slots.min(handles.len());
        let m = slots.min(sizes.len());
        let decided = self.state.arrival(
            &mut handles[..n],
            &mut sizes[..m],
            Micros(clock),
            handle,
            Bytes(size as u64),
            ecn,
            u,
        );
        self.reply(decided.map(|verdict| Accepted::Decided(verdict)), out);
    }

    fn first_line(&mut self, command: Option<Command>, out: &mut Output<'_>)
        requires { HasRoom out.old room }
        ensures { (handles sizes : List ℕ) →
            Said (first_line self.old handles sizes command) self.new out.old out.new }
    {
        let Some(command) = command else {
            return self.bad_line(out);
        };
        match command {
            Command::Configure {
                target,
                buffer,
                slots,
            } => self.start_line(target, buffer, slots, out),
            Command::Arrival { .. } | Command::Departure { .. } | Command::Tick { .. } => {
                self.bad_line(out)
            }
        }
    }

    fn later_line(
        &mut self,
        command: Option<Command>,
        handles: &mut [u32],
        sizes: &mut [u32],
        out: &mut Output<'_>,
    )
        requires { HasRoom out.old room }
        ensures { Did (later_line self.old handles.old sizes.old command)
            self.new handles.new sizes.new out.old out.new }
    {
        let Some(command) = command else {
            return self.bad_line(out);
        };
        match command {
            Command::Arrival {
                clock,
                handle,
                size,
                ecn,
                u,
            } => self.arrival_line(handles, sizes, clock, handle, size, ecn, u, out),
            Command::Departure { clock } => self.departure_line(handles, sizes, clock, out),
            Command::Tick { clock } => self.tick_line(clock, out),
            Command::Configure { .. } => self.bad_line(out),
        }
    }

    pub fn answer(
        &mut self,
        command: Option<Command>,
        handles: &mut [u32],
        sizes: &mut [u32],
        out: &mut Output<'_>,
    )
        requires { HasRoom out.old room }
        ensures { Did (outcome self.old handles.old sizes.old command)
            self.new handles.new sizes.new out.old out.new }
    {
        match self.stage {
            Stage::First => self.first_line(command, out),
            Stage::Running => self.later_line(command, handles, sizes, out),
            Stage::Ended => {}
        }
    }
}
