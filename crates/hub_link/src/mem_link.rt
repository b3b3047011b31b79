//! A hub link in memory.
ghost use Rattle.std.specs.Prelude.{◌≡◌, ◌≤◌, ◌||◌, ◌==◌, ℕ, List, Option, [], ◌∷◌, length, drop, Some, vec_len, IfOk, IfErr};
ghost use Rattle.std.specs.Option.{option_map};
ghost use Rattle.hub_devices.specs.Calls.{Grows, is_fault};
ghost use Rattle.hub_devices.specs.FailingCalls.{is_failing, after_call, new_script};
ghost use Rattle.hub_devices.specs.Faults.{Rises};
ghost use Rattle.hub_devices.specs.declared.link_error.LinkError.TheVariants as Link;
ghost use Rattle.hub_link.specs.Links.{reply_of, Comes};

use crate::link::HubLink;
use hub_devices::call_log::CallLog;
use hub_devices::link_error::LinkError;
use hub_kit::bytes::Bytes;
use std::alloc::{AllocError, Global};

/// Answers its replies in order and keeps what it is asked. It fails at the calls that `failing` numbers, the first call
/// being 0, which take no reply, and past its replies. A request that finds no memory to be kept is not told, and no other
/// is from then on.
pub struct MemHubLink {
    alloc: Global,
    replies: Vec<Bytes>,
    at: usize,
    log: CallLog<Bytes, Option<Bytes>>,
    ghost in_range: { at ≤ vec_len replies },
}

impl Drop for MemHubLink {
    fn drop(self) {
        let MemHubLink {
            alloc: _,
            replies: _,
            at: _,
            log: _,
        } = self;
    }
}

impl MemHubLink {
    pub fn new(alloc: Global, replies: Vec<Bytes>, failing: Vec<u64>) -> MemHubLink
        ensures asked { ⟦<MemHubLink as HubLink>⟧.asked result ≡ Some [] }
        ensures replies { drop result.at result.replies.items ≡ replies.items }
        ensures script { result.log.script ≡ new_script failing.items }
    {
        MemHubLink {
            alloc,
            replies,
            at: 0,
            log: CallLog::new(alloc, failing),
        }
    }

    /// What it was asked, each with the reply to it if one was given, unless one request found no memory to be kept.
    pub fn asked(&self) -> Option<&[(Bytes, Option<Bytes>)]>
        ensures { ⟦<MemHubLink as HubLink>⟧.asked self.now ≡ option_map (λ asked. asked.now) result }
    {
        match &self.log.calls {
            Some(asked) => Some(asked.as_slice()),
            None => None,
        }
    }
}

/// A reply twice: one to give, and one to keep.
fn copy_twice(alloc: Global, reply: &Bytes) -> Result<(Bytes, Bytes), AllocError>
    ensures given { IfOk result (λ both. both.0 ≡ reply.now) }
    ensures kept { IfOk result (λ both. both.1 ≡ reply.now) }
{
    Ok((
        Bytes::from_slice(alloc, reply.as_slice())?,
        Bytes::from_slice(alloc, reply.as_slice())?,
    ))
}

impl HubLink for MemHubLink {
    ghost asked = { λ l. l.log.calls };

    ghost faults = { λ l. l.log.script.faults };

    ghost does = { λ before request given after. Comes (drop before.at before.replies.items) given (drop after.at after.replies.items) };

    fn ask(&mut self, request: &Bytes) -> Result<Bytes, LinkError>
        ensures asked { Grows self.old.log.calls ((request.now, reply_of result) ∷ []) self.new.log.calls }
        ensures does { Comes (drop self.old.at self.old.replies.items) result (drop self.new.at self.new.replies.items) }
        ensures counted { self.old.log.script.faults ≤ self.new.log.script.faults }
        ensures cause { IfErr result (λ e. e ≡ Link.Failed → Rises self.old.log.script.faults self.new.log.script.faults) }
        ensures fails { is_fault result ≡ (is_failing self.old.log.script || (self.old.at == length self.old.replies.items)) }
        ensures script { self.new.log.script ≡ after_call self.old.log.script (is_fault result) }
    {
        let request = Bytes::from_slice(self.alloc, request.as_slice());
        if self.log.script.next() {
            self.log.keep(request, None);
            return Err(LinkError::Failed);
        }
        if self.at == self.replies.len() {
            self.log.script.fail();
            self.log.keep(request, None);
            return Err(LinkError::Failed);
        }
        let Ok((given, kept)) = copy_twice(self.alloc, &self.replies[self.at]) else {
            self.log.keep(request, None);
            return Err(LinkError::Memory);
        };
        if !self.log.keep(request, Some(kept)) {
            return Err(LinkError::Memory);
        }
        self.at += 1;
        Ok(given)
    }
}
