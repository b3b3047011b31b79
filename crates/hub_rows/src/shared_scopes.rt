//! The scopes of shares.
ghost use Rattle.std.specs.Prelude.{◌≡◌, ◌≤◌, [], Some, None, length, IfOk, IfSome, OnOk, if◌then◌else◌};
ghost use Rattle.std.specs.Ordering.{is_lt};
ghost use Rattle.keyed_rows.specs.Sorted.{IsInOrder, is_in_order, rises_from, with_key};
ghost use Rattle.hub_kit.specs.KeyOrder.{name_cmp};
ghost use Rattle.scope_filters.specs.Scopes as spec;
ghost use Rattle.hub_rows.specs.SharedScopes.{is_left, placed_at, scope_cmp, with_scopes, without_scopes};

use hub_kit::list::List;
use hub_kit::text::Text;
use scope_filters::scope::{RawScope, scope_text};
use std::alloc::{AllocError, Global};
use std::cmp::Ordering;
use std::marker::Model;

/// Scopes in the order of their texts, each once, which contracts see as that list.
pub struct SharedScopes {
    scopes: List<RawScope>,
}

impl Drop for SharedScopes {
    fn drop(self) {
        let SharedScopes { scopes: _ } = self;
    }
}

impl Model for SharedScopes {
    ghost use Rattle.std.specs.Prelude.{List};
    ghost use Rattle.keyed_rows.specs.Sorted.{IsInOrder};
    ghost use Rattle.scope_filters.specs.declared.scope.RawScope.{RawScope};
    ghost use Rattle.hub_rows.specs.SharedScopes.{scope_cmp};

    ghost Value = { List RawScope };

    ghost view = { λ s. s.scopes };

    ghost invariant = { λ s. IsInOrder scope_cmp s.scopes };
}

impl SharedScopes {
    /// No scopes, which takes no memory.
    pub fn new(alloc: Global) -> SharedScopes
        ensures { result ≡ [] }
    {
        SharedScopes {
            scopes: List::from_vec(Vec::new(alloc)),
        }
    }

    /// The scopes of a list where they are in order and without repeats already.
    pub fn of_ordered(
        alloc: Global,
        scopes: List<RawScope>,
    ) -> Result<Option<SharedScopes>, AllocError>
        ensures { IfOk result (λ found. found ≡ (if is_in_order scope_cmp scopes then Some scopes else None)) }
    {
        if is_in_order(alloc, scopes.as_slice())? {
            return Ok(Some(SharedScopes { scopes }));
        }
        Ok(None)
    }

    pub fn as_slice(&self) -> &[RawScope]
        ensures scopes { result.now ≡ self.now }
        ensures ordered { IsInOrder scope_cmp self.now }
    {
        self.scopes.as_slice()
    }

    /// These scopes and more.
    pub fn with(&self, alloc: Global, more: &[RawScope]) -> Result<SharedScopes, AllocError>
        ensures { IfOk result (λ scopes. scopes ≡ with_scopes more.now self.now) }
    {
        let scopes = with_scopes(alloc, more, self.scopes.as_slice())?;
        Ok(SharedScopes {
            scopes: List::from_vec(scopes),
        })
    }

    /// These scopes less some.
    pub fn without(&self, alloc: Global, less: &[RawScope]) -> Result<SharedScopes, AllocError>
        ensures { IfOk result (λ scopes. scopes ≡ without_scopes less.now self.now) }
    {
        let scopes = without_scopes(alloc, less, self.scopes.as_slice())?;
        Ok(SharedScopes {
            scopes: List::from_vec(scopes),
        })
    }

    pub fn copy(&self, alloc: Global) -> Result<SharedScopes, AllocError>
        ensures { IfOk result (λ scopes. scopes ≡ self.now) }
    {
        let copy = Vec::from_slice(alloc, self.scopes.as_slice())?;
        Ok(SharedScopes {
            scopes: List::from_vec(copy),
        })
    }
}

fn is_in_order(alloc: Global, scopes: &[RawScope]) -> Result<bool, AllocError>
    ensures { IfOk result (λ answer. answer ≡ is_in_order scope_cmp scopes.now) }
{
    match scopes.first() {
        Some(first) => rises_from(alloc, first, &scopes[1..]),
        None => Ok(true),
    }
}

/// Whether each scope is below the next, from one that stands before them.
fn rises_from(alloc: Global, first: &RawScope, scopes: &[RawScope]) -> Result<bool, AllocError>
    ensures { IfOk result (λ answer. answer ≡ rises_from scope_cmp first.now scopes.now) }
{
    let mut last = first;
    for scope in scopes {
        let below = is_below(alloc, last, scope)?;
        if !below {
            return Ok(false);
        }
        last = scope;
    }
    Ok(true)
}

fn is_below(alloc: Global, a: &RawScope, b: &RawScope) -> Result<bool, AllocError>
    ensures { IfOk result (λ answer. answer ≡ is_lt (scope_cmp a.now b.now)) }
{
    let text = scope_text(alloc, a)?;
    Ok(compare(alloc, &text, b)?.is_lt())
}

/// Compares a text with that of a scope.
fn compare(alloc: Global, text: &Text, scope: &RawScope) -> Result<Ordering, AllocError>
    ensures { IfOk result (λ order. order ≡ name_cmp text.now (spec.scope_text scope.now)) }
{
    let other = scope_text(alloc, scope)?;
    Ok(text.cmp(&other))
}

/// The kept scopes, and more of them at their places.
fn with_scopes(
    alloc: Global,
    more: &[RawScope],
    kept: &[RawScope],
) -> Result<Vec<RawScope>, AllocError>
    ensures { IfOk result (λ scopes. scopes.items ≡ with_scopes more.now kept.now) }
{
    let mut scopes = Vec::from_slice(alloc, kept)?;
    for scope in more {
        place(alloc, &mut scopes, scope)?;
    }
    Ok(scopes)
}

/// Puts a scope at its place, if it isn't there.
fn place(alloc: Global, scopes: &mut Vec<RawScope>, scope: &RawScope) -> Result<(), AllocError>
    ensures { OnOk result (scopes.new.items ≡ with_key scope_cmp scope.now scopes.old.items) }
{
    match place_of(alloc, scopes.as_slice(), scope)? {
        None => Ok(()),
        Some(at) => {
            scopes.insert(at, *scope)?;
            Ok(())
        }
    }
}

/// The place at which a scope has to be put among others, unless it is one of them.
fn place_of(
    alloc: Global,
    scopes: &[RawScope],
    scope: &RawScope,
) -> Result<Option<usize>, AllocError>
    ensures place { IfOk result (λ at. placed_at at scope.now scopes.now ≡ with_key scope_cmp scope.now scopes.now) }
    ensures within { IfOk result (λ at. IfSome at (λ i. i ≤ length scopes.now)) }
{
    let text = scope_text(alloc, scope)?;
    place_of_text(alloc, scopes, scope, &text)
}

fn place_of_text(
    alloc: Global,
    scopes: &[RawScope],
    scope: &RawScope,
    text: &Text,
) -> Result<Option<usize>, AllocError>
    requires { text.now ≡ spec.scope_text scope.now }
    ensures place { IfOk result (λ at. placed_at at scope.now scopes.now ≡ with_key scope_cmp scope.now scopes.now) }
    ensures within { IfOk result (λ at. IfSome at (λ i. i ≤ length scopes.now)) }
{
    for at in 0..scopes.len() {
        match compare(alloc, text, &scopes[at])? {
            Ordering::Less => return Ok(Some(at)),
            Ordering::Equal => return Ok(None),
            Ordering::Greater => {}
        }
    }
    Ok(Some(scopes.len()))
}

/// The kept scopes, less some of them.
fn without_scopes(
    alloc: Global,
    less: &[RawScope],
    kept: &[RawScope],
) -> Result<Vec<RawScope>, AllocError>
    ensures { IfOk result (λ scopes. scopes.items ≡ without_scopes less.now kept.now) }
{
    let mut scopes = Vec::new(alloc);
    for scope in kept {
        if is_left(less, scope) {
            scopes.push(*scope)?;
        }
    }
    Ok(scopes)
}

fn is_left(less: &[RawScope], scope: &RawScope) -> bool
    ensures { result ≡ is_left less.now scope.now }
{
    !less.contains(scope)
}
