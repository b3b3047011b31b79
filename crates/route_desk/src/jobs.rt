//! The steps as jobs of the desk.
ghost use Rattle.std.specs.Prelude.{◌≡◌, false, true};
ghost use Rattle.route_desk.specs.declared.step.Step.TheVariants.{Looked, Asked};
ghost use Rattle.route_desk.specs.History.{Steps, IsLookAnswer};

use crate::route_book::RouteBook;
use desk::Job;
use http_wire::request::Request;
use hub_kit::moment::Moment;
use hub_kit::target::Target;
use hub_kit::text::Text;
use proxy_api::texts::ApiReply;
use route_table::route::RouteRefusal;
use std::alloc::Global;

/// A look-up.
#[derive(Drop)]
pub(crate) struct LookJob<'a> {
    pub(crate) alloc: Global,
    pub(crate) path: &'a [u8],
    pub(crate) now: Moment,
    pub(crate) acted: bool,
}

impl<'a> Job<RouteBook> for LookJob<'a> {
    type Answer = Result<Target, RouteRefusal>;

    ghost acted = { λ j. j.acted };

    ghost does = { λ j b r j' b'. Steps b (Looked j.path.now j.now r) b' × IsLookAnswer j.path.now r };

    fn act(&mut self, book: &mut RouteBook) -> Result<Target, RouteRefusal> {
        self.acted = true;
        book.look(self.alloc, self.path, self.now)
    }
}

/// A call of the API.
#[derive(Drop)]
pub(crate) struct AskJob<'a> {
    pub(crate) alloc: Global,
    pub(crate) secret: &'a Text,
    pub(crate) now: Moment,
    pub(crate) request: &'a Request,
    pub(crate) acted: bool,
}

impl<'a> Job<RouteBook> for AskJob<'a> {
    type Answer = ApiReply;

    ghost acted = { λ j. j.acted };

    ghost does = { λ j b r j' b'. Steps b (Asked j.secret.now j.now j.request.now r) b' };

    fn act(&mut self, book: &mut RouteBook) -> ApiReply {
        self.acted = true;
        book.ask(self.alloc, self.secret, self.now, self.request)
    }
}
