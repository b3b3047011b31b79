//! Calls on the store that another thread has.
ghost use Rattle.std.specs.Prelude.{◌≡◌, MatchOption};
ghost use Rattle.keeper.specs.Rows.{place_of};
ghost use Rattle.store_thread.specs.declared.calls.Call.TheVariants as Call;
ghost use Rattle.store_thread.specs.Far.{choice, HasRead, IsHeard, IsRead, IsReadNow};
ghost use Rattle.store_thread.specs.Mailbox.{IsAnswered, IsUnanswered};

use crate::calls::{Answer, Call, copy_batch};
use crate::ends::FarEnd;
use hub_kit::text::Text;
use hub_store::file_places::FileError;
use keeper::keeper::{Batch, KeeperError, Row};
use std::alloc::Global;
use std::marker::Model;
use std::sync::Wait;

/// What calls the store. Contracts see what it asked and heard.
#[derive(Drop)]
pub(crate) struct Caller<W: Wait + Copy> {
    end: FarEnd<W>,
    /// What the reading at the choice of a place gave, for the first load.
    read: Option<Result<Vec<Row>, KeeperError>>,
    refusal: Option<FileError>,
}

impl<W: Wait + Copy> Model for Caller<W> {
    ghost use Rattle.store_thread.specs.Far.{HasRead};
    ghost use Rattle.store_thread.specs.declared.mailbox.Talk.{Talk};

    ghost Value = { Talk };

    ghost view = { λ c. c.end };

    ghost invariant = { λ c. HasRead c.end c.read };
}

impl<W: Wait + Copy> Caller<W> {
    pub(crate) fn new(end: FarEnd<W>) -> Caller<W>
        ensures { result ≡ end }
    {
        Caller {
            end,
            read: None,
            refusal: None,
        }
    }

    /// Why the store hasn't taken its place, if it hasn't.
    pub(crate) fn refusal(&self) -> Option<FileError> {
        let _ = &self.end;
        self.refusal
    }

    /// Hands a call over and waits for its answer. What was read at the choice isn't for a later load.
    fn ask(&mut self, call: Call) -> Option<Answer>
        ensures { MatchOption result (IsUnanswered self.old call self.new) (λ answer. IsAnswered self.old call answer self.new) }
    {
        self.read = None;
        let answer = self.end.ask(call)?;
        self.refusal = answer.refusal;
        Some(answer)
    }

    /// Has a call done of which nothing is to be read.
    fn have_done(&mut self, call: Call) -> Result<(), KeeperError>
        ensures { IsHeard self.old call result self.new }
    {
        match self.ask(call) {
            Some(answer) => answer.done,
            None => Err(KeeperError::Memory),
        }
    }

    /// Keeps what was read at the choice of a place.
    fn keep(&mut self, read: Option<Result<Vec<Row>, KeeperError>>)
        requires { HasRead self.old read }
        ensures { self.new ≡ self.old }
    {
        let _ = &self.end;
        self.read = read;
    }

    /// Has the store at a place taken, and keeps what was read there for the first load.
    fn open(&mut self, place: Text) -> Result<(), KeeperError>
        ensures { IsHeard self.old (Call.Open place) result self.new }
    {
        let Some(answer) = self.ask(Call::Open(place)) else {
            return Err(KeeperError::Memory);
        };
        match answer.done {
            Ok(()) => {
                self.keep(answer.rows);
                Ok(())
            }
            Err(error) => Err(error),
        }
    }

    /// Has the store at a place taken, or has it stay with its own where no place is given.
    pub(crate) fn choose(&mut self, alloc: Global, place: Option<&Text>) -> Result<(), KeeperError>
        ensures { IsHeard self.old (choice (place_of place.entry)) result self.new }
    {
        match place {
            Some(place) => match place.copy(alloc) {
                Ok(place) => self.open(place),
                Err(_) => Err(KeeperError::Memory),
            },
            None => self.have_done(Call::Stay),
        }
    }

    /// Has a batch kept.
    pub(crate) fn commit(&mut self, alloc: Global, batch: &Batch) -> Result<(), KeeperError>
        ensures { IsHeard self.old (Call.Commit batch.now) result self.new }
    {
        match copy_batch(alloc, batch) {
            Ok(batch) => self.have_done(Call::Commit(batch)),
            Err(_) => Err(KeeperError::Memory),
        }
    }

    /// What was read at the choice, once.
    fn take_read(&mut self) -> Option<Result<Vec<Row>, KeeperError>>
        ensures same { self.new ≡ self.old }
        ensures read { HasRead self.old result }
    {
        let _ = &self.end;
        self.read.take()
    }

    /// The rows as the store reads them now.
    fn read_now(&mut self) -> Result<Vec<Row>, KeeperError>
        ensures { IsReadNow self.old result self.new }
    {
        let Some(answer) = self.ask(Call::Load) else {
            return Err(KeeperError::Memory);
        };
        let Answer {
            done: _,
            rows,
            refusal: _,
        } = answer;
        match rows {
            Some(read) => read,
            None => Err(KeeperError::Memory),
        }
    }

    /// The rows: those that were read at the choice, or else as the store reads them now.
    pub(crate) fn load(&mut self) -> Result<Vec<Row>, KeeperError>
        ensures { IsRead self.old result self.new }
    {
        match self.take_read() {
            Some(read) => read,
            None => self.read_now(),
        }
    }
}
