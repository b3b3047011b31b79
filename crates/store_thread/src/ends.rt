//! The two ends of the mailbox. A channel to each side rings where a parcel was put in; what the parcel tells is the mailbox's rule.
ghost use Rattle.std.specs.Prelude.{◌≡◌, ◌⊎◌, Bool, Some, None, MatchBool, MatchOption, IfOk};
ghost use Rattle.store_thread.specs.Mailbox.{no_talk, with_call, without_call, with_answer, exchange};
ghost use Rattle.store_thread.specs.Mailbox.{IsAnswered, IsUnanswered, IsTakenBack};
ghost use Rattle.store_thread.specs.Told.{known_of, IsFaithful};
ghost use Rattle.store_thread.specs.declared.calls.Call.{Call};

use crate::calls::{Answer, Call};
use crate::mailbox::{Giving, Hearing, Mailbox, Parcel, Putting, Taking, Telling, TwoEnds, View};
use crossbeam_channel::{Receiver, Sender, bounded};
use crossbeam_queue::Pass;
use std::alloc::{AllocError, Global};
use std::marker::Model;
use std::sync::{Arc, Wait};

/// What asks.
#[derive(Drop)]
pub(crate) struct FarEnd<W: Wait + Copy> {
    wait: W,
    bell: Sender<(), Global>,
    rung: Receiver<(), Global>,
    mailbox: Arc<Mailbox, Global>,
    pass: Pass<Parcel, View>,
    /// A call is still to be answered.
    waits: bool,
}

impl<W: Wait + Copy> Model for FarEnd<W> {
    ghost use Rattle.std.specs.Prelude.{◌≡◌, true, false, None};
    ghost use Rattle.std.specs.Arc.{arc_value};
    ghost use Rattle.crossbeam_queue.specs.Passes.{IsPassOf, ruled_capacity};
    ghost use Rattle.crossbeam_queue.specs.Passes as passes;
    ghost use Rattle.store_thread.specs.declared.mailbox.Talk.{Talk};

    ghost Value = { Talk };

    ghost view = { λ e. (passes.view e.pass).talk };

    ghost invariant = { λ e. IsPassOf (arc_value e.mailbox) e.pass × (ruled_capacity (arc_value e.mailbox) ≡ 1)
        × ((passes.view e.pass).asks ≡ true) × ((passes.view e.pass).answers ≡ false)
        × (e.waits ≡ false → (passes.view e.pass).talk.asked ≡ None) };
}

/// What answers.
#[derive(Drop)]
pub(crate) struct NearEnd<W: Wait + Copy> {
    wait: W,
    bell: Sender<(), Global>,
    rung: Receiver<(), Global>,
    mailbox: Arc<Mailbox, Global>,
    pass: Pass<Parcel, View>,
}

impl<W: Wait + Copy> Model for NearEnd<W> {
    ghost use Rattle.std.specs.Prelude.{◌≡◌, true, false};
    ghost use Rattle.std.specs.Arc.{arc_value};
    ghost use Rattle.crossbeam_queue.specs.Passes.{IsPassOf, ruled_capacity};
    ghost use Rattle.crossbeam_queue.specs.Passes as passes;
    ghost use Rattle.store_thread.specs.declared.mailbox.Talk.{Talk};

    ghost Value = { Talk };

    ghost view = { λ e. (passes.view e.pass).talk };

    ghost invariant = { λ e. IsPassOf (arc_value e.mailbox) e.pass × (ruled_capacity (arc_value e.mailbox) ≡ 1)
        × ((passes.view e.pass).asks ≡ false) × ((passes.view e.pass).answers ≡ true) };
}

/// Both ends of a mailbox in which nothing lay yet.
pub(crate) fn two_ends<W: Wait + Copy>(
    alloc: Global,
    wait: W,
) -> Result<(FarEnd<W>, NearEnd<W>), AllocError>
    ensures { IfOk result (λ ends. (ends.0 ≡ no_talk) × (ends.1 ≡ no_talk)) }
{
    let (far_bell, near_rung) = bounded(alloc, 1)?;
    let (near_bell, far_rung) = bounded(alloc, 1)?;
    let (queue, mut asks) = Mailbox::ruled(alloc, 1)?;
    let answers = queue.another::<TwoEnds>(&mut asks);
    let mailbox = Arc::new(alloc, queue)?;
    let shared = Arc::try_clone(&mailbox)?;
    Ok((
        FarEnd {
            wait,
            bell: far_bell,
            rung: far_rung,
            mailbox,
            pass: asks,
            waits: false,
        },
        NearEnd {
            wait,
            bell: near_bell,
            rung: near_rung,
            mailbox: shared,
            pass: answers,
        },
    ))
}

impl<W: Wait + Copy> FarEnd<W> {
    /// Puts a call into the mailbox, unless one is still to be answered.
    fn put(&mut self, call: Call) -> bool
        ensures { MatchBool result ((self.old.asked ≡ None) × (self.new ≡ with_call call self.old)) (self.new ≡ self.old) }
    {
        if self.waits {
            return false;
        }
        match self
            .mailbox
            .try_push_as::<Putting>(&mut self.pass, Parcel::Question(call))
        {
            Ok(()) => {
                self.waits = true;
                true
            }
            Err(_) => false,
        }
    }

    /// Takes out what lies in the mailbox: the answer, or the call itself where nobody took it.
    fn hear(&mut self) -> Option<Answer>
        ensures { MatchOption result ((self.new ≡ self.old) ⊎ (self.new ≡ without_call self.old))
            (λ answer. (call : Call) × (told : Bool) × (self.old.asked ≡ Some call) × (self.new ≡ with_answer call answer told self.old)
            × IsFaithful (known_of self.old.seen) (exchange call answer told)) }
    {
        match self.mailbox.try_pop_as::<Hearing>(&mut self.pass) {
            Some(Parcel::Reply(answer)) => {
                self.waits = false;
                Some(answer)
            }
            Some(Parcel::Question(_)) => {
                self.waits = false;
                None
            }
            None => None,
        }
    }

    /// Rings, and waits until the other end rings or is gone.
    fn ring(&self) {
        if self.bell.send(&self.wait, ()).is_ok() {
            let _ = self.rung.recv(&self.wait);
        }
    }

    /// Has a call answered. The other end is there until this one goes, unless it had no memory to begin.
    pub(crate) fn ask(&mut self, call: Call) -> Option<Answer>
        ensures { MatchOption result (IsUnanswered self.old call self.new) (λ answer. IsAnswered self.old call answer self.new) }
    {
        if !self.put(call) {
            return None;
        }
        self.ring();
        self.hear()
    }
}

impl<W: Wait + Copy> NearEnd<W> {
    /// Waits for a call.
    pub(crate) fn take(&mut self) -> Option<Call>
        ensures { MatchOption result ((self.new ≡ self.old) ⊎ IsTakenBack self.old self.new)
            (λ call. (self.old.asked ≡ None) × (self.new ≡ with_call call self.old)) }
    {
        if self.rung.recv(&self.wait).is_err() {
            return None;
        }
        match self.mailbox.try_pop_as::<Taking>(&mut self.pass) {
            Some(Parcel::Question(call)) => Some(call),
            // nobody rings while an answer lies there
            Some(Parcel::Reply(_)) => None,
            None => None,
        }
    }

    /// Puts in the answer of a store that tells its rows, or doesn't, as the caller picks.
    pub(crate) fn give_as<N: Telling>(&mut self, answer: Answer) -> bool
        requires { (call : Call) × (self.old.asked ≡ Some call) × IsFaithful (known_of self.old.seen) (exchange call answer N.told) }
        ensures { MatchBool result ((call : Call) → self.old.asked ≡ Some call → self.new ≡ with_answer call answer N.told self.old)
            (self.new ≡ self.old) }
    {
        match self
            .mailbox
            .try_push_as::<Giving<N>>(&mut self.pass, Parcel::Reply(answer))
        {
            Ok(()) => true,
            Err(_) => false,
        }
    }

    /// Rings. Where the other end is gone nobody hears it.
    pub(crate) fn ring(&self) -> bool {
        self.bell.send(&self.wait, ()).is_ok()
    }
}
