//! Whether the names in the lists of a configuration are kept or configured.
ghost use Rattle.std.specs.Prelude.{◌≡◌, ◌++◌, ℕ, List, Option, map, IfOk, OnOk};
ghost use Rattle.std.specs.List.{filter_map, flat_map};
ghost use Rattle.keyed_rows.specs.Sorted.{in_order};
ghost use Rattle.keeper.specs.declared.keeper.Row.{Row};
ghost use Rattle.hub_main.specs.Known as spec;
ghost use Rattle.hub_main.specs.declared.known_names.AnyName.{AnyName};
ghost use Rattle.hub_main.specs.declared.known_names.AnyName.TheVariants as any;

use hub_kit::key::Key;
use hub_kit::names::{GroupName, ServiceName, UserName, read_group, read_service, read_user};
use hub_opening::config::{ConfigService, ConfigToken, ConfigUser, HubConfig};
use hub_rows::records::{Group, Role};
use keeper::keeper::Row;
use keyed_rows::sorted::Sorted;
use scope_filters::holder::Owner;
use std::alloc::{AllocError, Global};
use std::fmt;

/// The name of a user, a group or a service.
#[derive(Clone, Copy)]
pub enum AnyName {
    User(UserName),
    Group(GroupName),
    Service(ServiceName),
}

impl fmt::Display for AnyName {
    fn fmt<W: fmt::Write>(&self, f: &mut fmt::Formatter<W>) -> fmt::Result {
        let (kind, name) = match self {
            AnyName::User(name) => ("user", name.as_str()),
            AnyName::Group(name) => ("group", name.as_str()),
            AnyName::Service(name) => ("service", name.as_str()),
        };
        write!(f, "the {kind} {name}")
    }
}

// ---- names that are kept

/// A name that is the key of the rows of a kind of its own.
trait KeptName: Key + Copy {
    ghost name_in: { Row → Option Self };

    ghost of_kind: { Self → AnyName };

    /// The name of a row, if it is of this kind.
    fn of_row(row: &Row) -> Option<Self>
        ensures { result ≡ name_in row.now };

    /// The name with its kind.
    fn with_kind(self) -> AnyName
        ensures { result ≡ of_kind self };
}

impl KeptName for UserName {
    ghost name_in = { spec.name_in 1 };

    ghost of_kind = { any.User };

    fn of_row(row: &Row) -> Option<UserName> {
        if row.kind == 1 {
            read_user(row.key.as_bytes()).ok()
        } else {
            None
        }
    }

    fn with_kind(self) -> AnyName {
        AnyName::User(self)
    }
}

impl KeptName for GroupName {
    ghost name_in = { spec.name_in 2 };

    ghost of_kind = { any.Group };

    fn of_row(row: &Row) -> Option<GroupName> {
        if row.kind == 2 {
            read_group(row.key.as_bytes()).ok()
        } else {
            None
        }
    }

    fn with_kind(self) -> AnyName {
        AnyName::Group(self)
    }
}

impl KeptName for ServiceName {
    ghost name_in = { spec.name_in 3 };

    ghost of_kind = { any.Service };

    fn of_row(row: &Row) -> Option<ServiceName> {
        if row.kind == 3 {
            read_service(row.key.as_bytes()).ok()
        } else {
            None
        }
    }

    fn with_kind(self) -> AnyName {
        AnyName::Service(self)
    }
}

// ---- names that are configured

/// A row of a configuration, which has a name.
trait Named {
    type Name: KeptName;

    ghost name: { Self → Self.Name };

    fn name(&self) -> Self::Name
        ensures { result ≡ name self.now };
}

impl Named for ConfigUser {
    type Name = UserName;

    ghost name = { λ user. user.name };

    fn name(&self) -> UserName {
        self.name
    }
}

impl Named for Group {
    type Name = GroupName;

    ghost name = { λ group. group.name };

    fn name(&self) -> GroupName {
        self.name
    }
}

impl Named for ConfigService {
    type Name = ServiceName;

    ghost name = { λ service. service.name };

    fn name(&self) -> ServiceName {
        self.name
    }
}

// ---- both

/// The names that are kept or configured.
struct Names {
    users: Sorted<UserName>,
    groups: Sorted<GroupName>,
    services: Sorted<ServiceName>,
}

impl Drop for Names {
    fn drop(self) {
        let Names {
            users: _,
            groups: _,
            services: _,
        } = self;
    }
}

impl Names {
    /// Whether this name is kept or configured.
    fn have(&self, name: &AnyName) -> bool
        ensures { result ≡ spec.is_known self.now name.now }
    {
        match name {
            AnyName::User(name) => self.users.contains(name),
            AnyName::Group(name) => self.groups.contains(name),
            AnyName::Service(name) => self.services.contains(name),
        }
    }
}

/// The names of these rows and of these rows of a configuration.
fn names_in<T: Named>(
    alloc: Global,
    kept: &[Row],
    configured: &[T],
) -> Result<Sorted<T::Name>, AllocError>
    ensures { IfOk result (λ names. names ≡ in_order T.Name.Ord.cmp (filter_map T.Name.name_in kept.now ++ map T.name configured.now)) }
{
    let mut names = Vec::new(alloc);
    push_kept(&mut names, kept)?;
    push_configured::<T>(&mut names, configured)?;
    Ok(Sorted::from_vec(names))
}

fn push_kept<N: KeptName>(names: &mut Vec<N>, kept: &[Row]) -> Result<(), AllocError>
    ensures { OnOk result (names.new.items ≡ names.old.items ++ filter_map N.name_in kept.now) }
{
    for row in kept {
        if let Some(name) = N::of_row(row) {
            names.push(name)?;
        }
    }
    Ok(())
}

fn push_configured<T: Named>(names: &mut Vec<T::Name>, configured: &[T]) -> Result<(), AllocError>
    ensures { OnOk result (names.new.items ≡ names.old.items ++ map T.name configured.now) }
{
    for row in configured {
        names.push(row.name())?;
    }
    Ok(())
}

fn names_of(alloc: Global, config: &HubConfig, kept: &[Row]) -> Result<Names, AllocError>
    ensures { IfOk result (λ names. names ≡ spec.names_of config.now kept.now) }
{
    let users = names_in(alloc, kept, config.users.as_slice())?;
    let groups = names_in(alloc, kept, config.groups.as_slice())?;
    let services = names_in(alloc, kept, config.services.as_slice())?;
    Ok(Names {
        users,
        groups,
        services,
    })
}

// ---- the first that is neither

/// The first of these names that isn't known.
fn first_unknown<N: KeptName>(known: &Names, names: &Sorted<N>) -> Option<AnyName>
    ensures { result ≡ spec.first_unknown known.now (map N.of_kind names.now) }
{
    for name in names.as_slice() {
        let name = name.with_kind();
        if !known.have(&name) {
            return Some(name);
        }
    }
    None
}

/// What names others in a configuration.
trait Naming {
    ghost names: { Self → List AnyName };

    /// The first of its names that is neither kept nor configured.
    fn unknown(&self, known: &Names) -> Option<AnyName>
        ensures { result ≡ spec.first_unknown known.now (names self.now) };
}

impl Naming for Group {
    ghost names = { spec.in_group };

    fn unknown(&self, known: &Names) -> Option<AnyName> {
        first_unknown(known, &self.users)
    }
}

impl Naming for Role {
    ghost names = { spec.in_role };

    #[tactic(auto, using(crate::proofs::Unknown::unknown_of_both))]
    fn unknown(&self, known: &Names) -> Option<AnyName> {
        if let Some(name) = first_unknown(known, &self.users) {
            return Some(name);
        }
        if let Some(name) = first_unknown(known, &self.groups) {
            return Some(name);
        }
        first_unknown(known, &self.services)
    }
}

/// The name of an owner.
fn owner_name(owner: Owner) -> AnyName
    ensures { result ≡ spec.owner_name owner }
{
    match owner {
        Owner::User(name) => AnyName::User(name),
        Owner::Service(name) => AnyName::Service(name),
    }
}

impl Naming for ConfigToken {
    ghost names = { spec.in_token };

    fn unknown(&self, known: &Names) -> Option<AnyName> {
        let name = owner_name(self.owner);
        if known.have(&name) { None } else { Some(name) }
    }
}

fn unknown_in<T: Naming>(known: &Names, rows: &[T]) -> Option<AnyName>
    ensures { result ≡ spec.first_unknown known.now (flat_map T.names rows.now) }
{
    for row in rows {
        if let Some(name) = row.unknown(known) {
            return Some(name);
        }
    }
    None
}

/// The first of the groups, the roles and the tokens that names somebody unknown decides.
#[tactic(auto, using(crate::proofs::Unknown::unknown_of_both))]
fn unknown_among(known: &Names, config: &HubConfig) -> Option<AnyName>
    ensures { result ≡ spec.first_unknown known.now (spec.listed config.now) }
{
    if let Some(name) = unknown_in(known, config.groups.as_slice()) {
        return Some(name);
    }
    if let Some(name) = unknown_in(known, config.roles.as_slice()) {
        return Some(name);
    }
    unknown_in(known, config.tokens.as_slice())
}

/// The first name in a list of the configuration that is neither configured nor that of a row, if there is one.
pub(crate) fn unknown_name(
    alloc: Global,
    config: &HubConfig,
    kept: &[Row],
) -> Result<Option<AnyName>, AllocError>
    ensures { IfOk result (λ unknown. unknown ≡ spec.unknown_name config.now kept.now) }
{
    let known = names_of(alloc, config, kept)?;
    let unknown = unknown_among(&known, config);
    drop(known);
    Ok(unknown)
}
