//! Files of configuration as people write them.
use crate::check::check;
use hub_config::explain::explain;
use hub_config::reading::read_config;
use std::alloc::Global;
use std::process::Abort;

const WHOLE: &str = "listen = \"127.0.0.1:8000\"
pool = [\"http://127.0.0.1:9001\", \"http://127.0.0.1:9002\"]
command = [\"single-user\", \"--port={port}\"]
proxy_api = \"http://127.0.0.1:8001\"
proxy_secret = \"secret-of-the-proxy\"
hub_url = \"http://127.0.0.1:8000\"
limits = {users = 40, trail_bytes = 1000000}
custom_scopes = [{name = \"custom:grades\", subscopes = [\"custom:grades:read\"]}, {name = \"custom:grades:read\"}]

[[users]]
name = \"ann\"
admin = true

[[users]]
name = \"bob\"

[[groups]]
name = \"class\"
users = [\"bob\", \"ann\"]

[[services]]
name = \"grader\"
redirect_uri = \"http://127.0.0.1:9100/back\"
secret = \"secret-of-the-grader\"
command = [\"grader\", \"--port=9100\"]
target = \"http://127.0.0.1:9100\"

[[roles]]
name = \"teacher\"
scopes = [\"custom:grades\", \"read:users!group=class\"]
users = [\"ann\"]

[[tokens]]
token = \"token-of-the-grader\"
service = \"grader\"
scopes = [\"custom:grades:read\"]
";

/// Whether what is read is all that the file has.
fn is_whole(rt: &impl Abort, alloc: Global) -> bool {
    let read = read_config(alloc, WHOLE.as_bytes()).expect(rt, "read");
    let holds = (read.hub.pool.as_slice().len() == 2)
        & (read.hub.users.len() == 2)
        & (read.hub.limits.users == 40)
        & (read.hub.limits.groups == 10_000)
        & (read.managed.len() == 1)
        & (read.hub.custom_scopes.len() == 2);
    drop(read);
    holds
}

#[test]
fn a_whole_file_is_read(rt: HostRuntime) {
    check(&rt, is_whole(&rt, rt.alloc()), "a whole file");
}

const SAID: [(&str, &str); 14] = [
    (
        "listen = \"x\"",
        "line 1: listen: expected an address HOST:PORT, not \"x\"",
    ),
    ("listens = \"x\"", "line 1: there is no key \"listens\""),
    (
        "[[users]]\nname = \"ann\"\n\n[[users]]\nname = \"Bob\"\n",
        "line 5: users, entry 2: name: expected a name: 1 to 64 of a-z 0-9 . _ - @, the first a letter or a digit, not \"Bob\"",
    ),
    (
        "[[users]]\nadmin = true",
        "line 1: users, entry 1: name: it is missing",
    ),
    (
        "[[groups]]\nname = \"class\"\nmembers = []",
        "line 1: groups, entry 1: there is no key \"members\": the keys are name, users",
    ),
    (
        "[limits]\nusers = 100001",
        "line 2: limits: users: expected a whole number from 0 to 100000, not 100001",
    ),
    (
        "hub_url = \"http://h:1\"\npool = [\"http://h:9\",\n  \"ftp://h:9\"]",
        "line 2: pool, entry 2: expected a target http://HOST:PORT, not \"ftp://h:9\"",
    ),
    (
        "pool = [\"http://h:9\", \"http://h:9\"]",
        "line 1: pool: expected at most 1,000 targets, all distinct",
    ),
    (
        "proxy_api = \"http://h:1\"\nproxy_secret = \"12345678\"\nusers = 3",
        "line 3: users: expected a list, not 3",
    ),
    (
        "proxy_api = \"http://h:1\"",
        "line 1: proxy_secret: it is missing, and stands with proxy_api",
    ),
    (
        "[[tokens]]\ntoken = \"short\"\nuser = \"ann\"",
        "line 2: tokens, entry 1: token: expected 8 to 255 visible ASCII characters, not a text of 5 bytes",
    ),
    (
        "[[tokens]]\ntoken = \"token-of-nobody\"",
        "line 1: tokens, entry 1: it has to be of one user or of one service, and not of both",
    ),
    (
        "[[roles]]\nname = \"reader\"\nscopes = [\"read:users\", \"reed:users\"]",
        "line 3: roles, entry 1: scopes, entry 2: no scope is called \"reed:users\"",
    ),
    (
        "[[roles]]\nname = \"reader\"\n\n[[roles]]\nname = \"marker\"\nscopes = [\"custom:grades\"]",
        "line 6: roles, entry 2: scopes, entry 1: no entry of custom_scopes is called \"custom:grades\"",
    ),
];

/// Whether the text is refused, and this is said of it.
fn is_explained(rt: &impl Abort, alloc: Global, text: &str, wanted: &str) -> bool {
    let is_refused = read_config(alloc, text.as_bytes()).err().is_some();
    let said = explain(alloc, text.as_bytes()).expect(rt, "said");
    let holds = said.as_str() == wanted;
    drop(said);
    is_refused & holds
}

#[test]
fn a_refused_file_is_explained(rt: HostRuntime) {
    let alloc = rt.alloc();
    for (text, wanted) in &SAID {
        check(&rt, is_explained(&rt, alloc, text, wanted), text);
    }
}
