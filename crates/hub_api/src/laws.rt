//! What some requests ask.
ghost use Rattle.std.specs.Prelude.{◌≡◌, [], codes, Ok, Err, None};
ghost use Rattle.hub_api.specs.Calls.{asked, call_read};

use crate::refusal::ApiRefusal;
use http_wire::request::Request;
use hub_machine::call::Call;

/// `GET /hub/api/user` asks who the owner of the token is.
pub fn a_user_is_asked(request: &Request)
    requires path { request.now.path ≡ codes "/hub/api/user" }
    requires method { request.now.method ≡ codes "GET" }
    requires query { request.now.query ≡ [] }
    ensures { call_read request.now ≡ Ok (asked request.now (Call.GetIdentity None)) }
{}

/// `GET /hub/api/` asks the version.
pub fn a_version_is_asked(request: &Request)
    requires path { request.now.path ≡ codes "/hub/api/" }
    requires method { request.now.method ≡ codes "GET" }
    ensures { call_read request.now ≡ Ok (asked request.now Call.GetVersion) }
{}

/// `GET /hub/api/users/ann` asks the user ann.
pub fn a_named_user_is_asked(request: &Request)
    requires path { request.now.path ≡ codes "/hub/api/users/ann" }
    requires method { request.now.method ≡ codes "GET" }
    ensures { call_read request.now ≡ Ok (asked request.now (Call.GetUser (codes "ann"))) }
{}

/// A path that ends where a name should stand is none.
pub fn no_name_is_no_path(request: &Request)
    requires { request.now.path ≡ codes "/hub/api/users/" }
    ensures { call_read request.now ≡ Err ApiRefusal.NoPath }
{}

/// `POST /hub/api/users` needs names in its body.
pub fn users_are_needed(request: &Request)
    requires path { request.now.path ≡ codes "/hub/api/users" }
    requires method { request.now.method ≡ codes "POST" }
    requires body { request.now.body ≡ [] }
    ensures { call_read request.now ≡ Err ApiRefusal.BadBody }
{}
