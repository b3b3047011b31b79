//! The route of a server.
ghost use Rattle.std.specs.Prelude.{◌≡◌, ◌++◌, IfOk, OnOk};
ghost use Rattle.server_work.specs.RoutePaths as spec;

use hub_kit::names::ServerKey;
use hub_kit::text::Text;
use std::alloc::{AllocError, Global};

/// The path of a server's route: `/user/U` for the default server, else `/user/U/S`.
pub fn route_path(alloc: Global, key: &ServerKey) -> Result<Text, AllocError>
    ensures { IfOk result (λ path. path ≡ spec.route_path key.now) }
{
    let mut path = Text::from_str(alloc, "/user/")?;
    path.push_str(key.user.as_str())?;
    push_server(&mut path, key.server.as_str())?;
    Ok(path)
}

/// The part of the path behind the user.
fn push_server(path: &mut Text, server: &str) -> Result<(), AllocError>
    ensures { OnOk result (path.new ≡ path.old ++ spec.below_user server.now) }
{
    if server.is_empty() {
        return Ok(());
    }
    path.push_str("/")?;
    path.push_str(server)
}
