//! The paths of the calls, and how one is found.
ghost use Rattle.std.specs.Prelude.{◌≡◌, ◌<◌, ◌==◌, ◌∷◌, [], ℕ, length, position, IfSome, MatchOption};
ghost use Rattle.hub_paths.specs.Paths.{every_path, segments};
ghost use Rattle.hub_paths.specs.Paths as spec;

/// A path of the calls that are built, named by what it is.
#[derive(Clone, Copy)]
pub enum Path {
    /// The same as `Version`, without its last slash.
    Bare,
    Version,
    Info,
    Identity,
    Users,
    User,
    Activity,
    DefaultServer,
    NamedServer,
    Tokens,
    Token,
    Shared,
    GivenShares,
    /// `ServerShares` of the default server.
    DefaultShares,
    ServerShares,
    GivenCodes,
    /// `ServerCodes` of the default server.
    DefaultCodes,
    ServerCodes,
    Groups,
    Group,
    Members,
    Services,
    Service,
    Roles,
    Role,
    Authorize,
    Trade,
    Proxy,
}

impl Path {
    /// Its text. A name between braces stands for one segment of a byte or more.
    pub fn text(self) -> &'static str
        ensures { result.now ≡ spec.text_of self }
    {
        match self {
            Path::Bare => "/hub/api",
            Path::Version => "/hub/api/",
            Path::Info => "/hub/api/info",
            Path::Identity => "/hub/api/user",
            Path::Users => "/hub/api/users",
            Path::User => "/hub/api/users/{user}",
            Path::Activity => "/hub/api/users/{user}/activity",
            Path::DefaultServer => "/hub/api/users/{user}/server",
            Path::NamedServer => "/hub/api/users/{user}/servers/{server}",
            Path::Tokens => "/hub/api/users/{user}/tokens",
            Path::Token => "/hub/api/users/{user}/tokens/{id}",
            Path::Shared => "/hub/api/users/{user}/shared",
            Path::GivenShares => "/hub/api/shares/{owner}",
            Path::DefaultShares => "/hub/api/shares/{owner}/",
            Path::ServerShares => "/hub/api/shares/{owner}/{server}",
            Path::GivenCodes => "/hub/api/share-codes/{owner}",
            Path::DefaultCodes => "/hub/api/share-codes/{owner}/",
            Path::ServerCodes => "/hub/api/share-codes/{owner}/{server}",
            Path::Groups => "/hub/api/groups",
            Path::Group => "/hub/api/groups/{group}",
            Path::Members => "/hub/api/groups/{group}/users",
            Path::Services => "/hub/api/services",
            Path::Service => "/hub/api/services/{service}",
            Path::Roles => "/hub/api/roles",
            Path::Role => "/hub/api/roles/{role}",
            Path::Authorize => "/hub/api/oauth2/authorize",
            Path::Trade => "/hub/api/oauth2/token",
            Path::Proxy => "/hub/api/proxy",
        }
    }
}

/// All paths. No text fits two of them.
static PATHS: [Path; 28] = [
    Path::Members,
    Path::Group,
    Path::Groups,
    Path::Info,
    Path::Authorize,
    Path::Trade,
    Path::Proxy,
    Path::Role,
    Path::Roles,
    Path::Service,
    Path::Services,
    Path::ServerCodes,
    Path::DefaultCodes,
    Path::GivenCodes,
    Path::ServerShares,
    Path::DefaultShares,
    Path::GivenShares,
    Path::Activity,
    Path::NamedServer,
    Path::DefaultServer,
    Path::Shared,
    Path::Token,
    Path::Tokens,
    Path::User,
    Path::Users,
    Path::Identity,
    Path::Version,
    Path::Bare,
];

#[tactic(auto, unfolding(crate::specs::Paths::every_path))]
fn paths() -> &'static [Path]
    ensures { result.now ≡ every_path }
{
    PATHS.as_slice()
}

/// Where the first slash stands.
fn first_slash(bytes: &[u8]) -> Option<usize>
    ensures value { result ≡ position (λ b. b == 47) bytes.now }
    ensures within { IfSome result (λ i. i < length bytes.now) }
{
    bytes.iter().position(|b| *b == b'/')
}

/// The bytes before the first slash, and those behind it.
fn next_segment(bytes: &[u8]) -> (&[u8], Option<&[u8]>)
    ensures parts { MatchOption result.1 (segments bytes.now ≡ result.0.now ∷ [])
        (λ rest. segments bytes.now ≡ result.0.now ∷ segments rest.now) }
    ensures shorter { IfSome result.1 (λ rest. length rest.now < length bytes.now) }
{
    match first_slash(bytes) {
        Some(end) => (&bytes[..end], Some(&bytes[end + 1..])),
        None => (bytes, None),
    }
}

/// Whether a part of a path fits a segment.
fn fits_part(part: &[u8], segment: &[u8]) -> bool
    ensures { result ≡ spec.fits_part part.now segment.now }
{
    if part.starts_with(b"{") {
        !segment.is_empty()
    } else {
        part == segment
    }
}

/// Whether the parts of a path fit the segments of a text, one by one.
fn fits(path: &[u8], text: &[u8]) -> bool
    ensures { result ≡ spec.fits path.now text.now }
{
    let mut parts = path;
    let mut segments = text;
    'segments: loop {
        let (part, more_parts) = next_segment(parts);
        let (segment, more_segments) = next_segment(segments);
        if !fits_part(part, segment) {
            return false;
        }
        match more_parts {
            Some(rest) => match more_segments {
                Some(left) => {
                    parts = rest;
                    segments = left;
                }
                None => return false,
            },
            None => return more_segments.is_none(),
        }
    }
}

/// The path that a text is. Nothing is decoded before.
#[tactic(auto, unfolding(crate::specs::Paths::path_of))]
pub fn path_of(text: &str) -> Option<Path>
    ensures { result ≡ spec.path_of text.now }
{
    for path in paths() {
        if fits(path.text().as_bytes(), text.as_bytes()) {
            return Some(*path);
        }
    }
    None
}
