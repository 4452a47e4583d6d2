//! What a script has made.
ghost use Rattle.std.specs.Prelude.{◌≡◌, ◌+◌, ◌<◌, ◌≤◌, ◌^◌, ◌++◌, [], IfOk, OnOk};
ghost use Rattle.std.specs.Arc.{arc_value};
ghost use Rattle.tablet_model.specs.Places.{Start};
ghost use Rattle.scan_session.specs.Takes.{mode_of};
ghost use Rattle.tablet_steps.specs.ModelSteps.{event_of};
ghost use Rattle.tablet_core.specs.State.{empty_core};
ghost use Rattle.tablet_replay.specs.Replay.{after_step, step_answer_text};
ghost use Rattle.tablet_replay.specs.Replies.{HasCause, Sends};
ghost use Rattle.tablet_replay.specs.TabletParts.{replayed_by};

use crate::outcome::ReplyError;
use crate::scan::{send_fetched, send_scan};
use crate::sessions::{OpenSession, Sessions};
use crate::status::append_status;
use cell_key::{ByteText, Families, NoMemory, RangeBuf};
use iter_config::Config;
use scan_session::Session;
use script_text::{SessionStep, append_closed, append_dropped, append_opened, append_renewed};
use std::alloc::Global;
use std::marker::Model;
use std::sync::Arc;
use tablet_core::{Core, Event};
use tablet_io::Sink;
use tablet_steps::LineRefusal;
use tablet_view::View;

/// What a script has made: the store, and the sessions that are open on its views.
#[derive(Drop)]
pub struct Tablet {
    core: Core,
    sessions: Sessions,
}

impl Model for Tablet {
    ghost use Rattle.tablet_replay.specs.TabletParts.{TabletState, ArePinned};

    ghost Value = { TabletState };

    ghost view = { λ t. record { core = t.core; sessions = t.sessions } };

    ghost invariant = { λ t. ArePinned t.core.view t.sessions };
}

/// The present view, shared.
fn present_view(core: &Core) -> Result<Arc<View>, NoMemory>
    ensures { IfOk result (λ view. arc_value view ≡ core.now.view) }
{
    Ok(Arc::try_clone(core.view())?)
}

/// A session at its start, on the present view.
fn session_on(
    core: &Core,
    alloc: Global,
    range: &RangeBuf,
    families: &Families,
    isolated: bool,
) -> Result<Session, NoMemory>
    ensures { IfOk result (λ session. session ≡ record {
      view = core.now.view;
      range = range.now;
      families = families.now;
      mode = mode_of isolated;
      place = Start;
    }) }
{
    let view = present_view(core)?;
    Session::open(alloc, &range.range(), families, isolated, view)
}

impl Tablet {
    ghost use Rattle.std.specs.Prelude.{false, length};
    ghost use Rattle.script_text.specs.declared.line.SessionStep.TheVariants as step;
    ghost use Rattle.script_text.specs.Answers.{scan_text};
    ghost use Rattle.tablet_replay.specs.Replay.{after_session_step, is_fetch, session_text};
    ghost use Rattle.tablet_replay.specs.Status.{status_text};
    ghost use Rattle.tablet_replay.specs.Sessions.{scan_answer};

    /// Nothing yet, under a configuration.
    pub fn open(alloc: Global, config: Config) -> Result<Tablet, NoMemory>
        ensures { IfOk result (λ t. t ≡ record { core = empty_core config; sessions = [] }) }
    {
        let config = Arc::new(alloc, config)?;
        Ok(Tablet {
            core: Core::open(alloc, config)?,
            sessions: Sessions::new(alloc),
        })
    }

    /// Takes a step of the store, and appends its answer.
    pub fn step(
        &mut self,
        alloc: Global,
        event: &Event,
        text: &mut ByteText,
    ) -> Result<(), NoMemory>
        requires { self.old.core.view.version < 2 ^ 63 }
        ensures text { OnOk result (text.new ≡ text.old ++ step_answer_text (replayed_by self.old) (event_of event.now)) }
        ensures state { OnOk result (replayed_by self.new ≡ after_step (replayed_by self.old) (event_of event.now)) }
        ensures version_rises_by_one_at_most { OnOk result (self.new.core.view.version ≤ self.old.core.view.version + 1) }
    {
        let answer = self.core.step(alloc, event);
        answer.append(alloc, text)
    }

    /// Appends the status of the store.
    pub fn status(&self, alloc: Global, text: &mut ByteText) -> Result<(), NoMemory>
        ensures { OnOk result (text.new ≡ text.old ++ status_text (replayed_by self.now).store) }
    {
        let status = self.core.status(alloc)?;
        append_status(alloc, text, &status)
    }

    /// Sends what a scan finds: all that a session would give that is opened now.
    pub fn scan<O: Sink>(
        &self,
        alloc: Global,
        range: &RangeBuf,
        families: &Families,
        text: &mut ByteText,
        output: &mut O,
    ) -> Result<(), ReplyError>
        ensures bytes { Sends (text.old ++ scan_text (length (replayed_by self.now).log)
            (scan_answer (replayed_by self.now).config range.now families.now (replayed_by self.now).log)) (O.taken output.old) (O.taken output.new) text.new result }
        ensures cause { HasCause (O.faults output.old) (O.faults output.new) result }
    {
        let view = self.core.view();
        let source = view.source(alloc, families)?;
        send_scan(
            alloc,
            view.config(),
            source,
            &range.range(),
            view.mutations(),
            text,
            output,
        )
    }

    /// Takes a step of a session that asks for no entries, and appends its answer.
    pub fn session_step(
        &mut self,
        alloc: Global,
        number: u32,
        step: &SessionStep,
        text: &mut ByteText,
    ) -> Result<(), NoMemory>
        requires { is_fetch step.now ≡ false }
        ensures text { OnOk result (text.new ≡ text.old ++ session_text (replayed_by self.old) number step.now) }
        ensures state { OnOk result (replayed_by self.new ≡ after_session_step (replayed_by self.old) number step.now) }
        ensures version { OnOk result (self.new.core.view.version ≡ self.old.core.view.version) }
    {
        match step {
            SessionStep::Open {
                range,
                families,
                isolated,
            } => self.open_session(alloc, number, range, families, *isolated, text),
            SessionStep::Renew => self.renew(alloc, number, text),
            SessionStep::Drop => self.drop_stack(alloc, number, text),
            SessionStep::Close => self.close(alloc, number, text),
            SessionStep::Fetch { .. } => unreachable!(),
        }
    }

    /// Opens a session on the present view, unless one of this number is open.
    fn open_session(
        &mut self,
        alloc: Global,
        number: u32,
        range: &RangeBuf,
        families: &Families,
        isolated: bool,
        text: &mut ByteText,
    ) -> Result<(), NoMemory>
        ensures text { OnOk result (text.new ≡ text.old ++ session_text (replayed_by self.old) number (step.Open range.now families.now isolated)) }
        ensures state { OnOk result (replayed_by self.new ≡ after_session_step (replayed_by self.old) number (step.Open range.now families.now isolated)) }
        ensures version { OnOk result (self.new.core.view.version ≡ self.old.core.view.version) }
    {
        match self.sessions.place_of(number) {
            Some(_) => LineRefusal::SessionOpen(number).append(alloc, text),
            None => {
                let session = session_on(&self.core, alloc, range, families, isolated)?;
                let n = session.n();
                self.sessions.push(OpenSession { number, session })?;
                append_opened(alloc, text, number, n)
            }
        }
    }

    /// Sends the next entries of a session, `count` of them.
    pub fn fetch<O: Sink>(
        &mut self,
        alloc: Global,
        number: u32,
        count: u32,
        text: &mut ByteText,
        output: &mut O,
    ) -> Result<(), ReplyError>
        requires { 1 ≤ count }
        ensures bytes { Sends (text.old ++ session_text (replayed_by self.old) number (step.Fetch count)) (O.taken output.old) (O.taken output.new) text.new result }
        ensures cause { HasCause (O.faults output.old) (O.faults output.new) result }
        ensures state { OnOk result (replayed_by self.new ≡ after_session_step (replayed_by self.old) number (step.Fetch count)) }
        ensures version { OnOk result (self.new.core.view.version ≡ self.old.core.view.version) }
    {
        match self.sessions.place_of(number) {
            Some(i) => {
                let fetched = self.sessions.fetch_at(alloc, i, count)?;
                send_fetched(alloc, &fetched, text, output)
            }
            None => Ok(LineRefusal::NoSession(number).append(alloc, text)?),
        }
    }

    /// Moves a session to the present view.
    fn renew(&mut self, alloc: Global, number: u32, text: &mut ByteText) -> Result<(), NoMemory>
        ensures text { OnOk result (text.new ≡ text.old ++ session_text (replayed_by self.old) number step.Renew) }
        ensures state { OnOk result (replayed_by self.new ≡ after_session_step (replayed_by self.old) number step.Renew) }
        ensures version { OnOk result (self.new.core.view.version ≡ self.old.core.view.version) }
    {
        match self.sessions.place_of(number) {
            Some(i) => {
                let view = present_view(&self.core)?;
                let n = view.mutations();
                self.sessions.renew_at(i, view);
                append_renewed(alloc, text, number, n)
            }
            None => LineRefusal::NoSession(number).append(alloc, text),
        }
    }

    /// Tears the stack of a session down.
    fn drop_stack(
        &mut self,
        alloc: Global,
        number: u32,
        text: &mut ByteText,
    ) -> Result<(), NoMemory>
        ensures text { OnOk result (text.new ≡ text.old ++ session_text (replayed_by self.old) number step.Drop) }
        ensures same { self.new ≡ self.old }
    {
        match self.sessions.place_of(number) {
            Some(i) => {
                self.sessions.drop_stack_at(i);
                append_dropped(alloc, text, number)
            }
            None => LineRefusal::NoSession(number).append(alloc, text),
        }
    }

    /// Ends a session.
    fn close(&mut self, alloc: Global, number: u32, text: &mut ByteText) -> Result<(), NoMemory>
        ensures text { OnOk result (text.new ≡ text.old ++ session_text (replayed_by self.old) number step.Close) }
        ensures state { OnOk result (replayed_by self.new ≡ after_session_step (replayed_by self.old) number step.Close) }
        ensures version { OnOk result (self.new.core.view.version ≡ self.old.core.view.version) }
    {
        match self.sessions.place_of(number) {
            Some(i) => {
                self.sessions.remove_at(i);
                append_closed(alloc, text, number)
            }
            None => LineRefusal::NoSession(number).append(alloc, text),
        }
    }
}
