//! What a token may see decides its replies.
ghost use Rattle.std.specs.Prelude.{◌≡◌, ℕ, true, IsTrue, List, Option};
ghost use Rattle.std.specs.Ordering.{nat_cmp};
ghost use Rattle.std.specs.FinMap.{FinMap, get, contains_key, len};
ghost use Rattle.hub_kit.specs.KeyOrder.{name_cmp, key_cmp};
ghost use Rattle.hub_kit.specs.declared.names.ServerKey.{ServerKey};
ghost use Rattle.scope_names.specs.declared.action.Action.TheVariants.{ReadHub, ReadServers, ReadTokens};
ghost use Rattle.scope_filters.specs.declared.object.Object.TheVariants as Ob;
ghost use Rattle.hub_rows.specs.ShareOrder.{share_cmp};
ghost use Rattle.hub_rows.specs.declared.keys.ShareKey.{ShareKey};
ghost use Rattle.hub_rows.specs.declared.records.ServerRow.{ServerRow};
ghost use Rattle.hub_rows.specs.declared.records.Share.{Share};
ghost use Rattle.hub_rows.specs.declared.records.ShareCode.{ShareCode};
ghost use Rattle.hub_rows.specs.declared.records.Token.{Token};
ghost use Rattle.hub_rows.specs.declared.records.User.{User};
ghost use Rattle.hub_tables.specs.Own.{AreOwn};
ghost use Rattle.roles.specs.Rights.{shares_received};
ghost use Rattle.shares.specs.Lists.{is_share_of};
ghost use Rattle.shares.specs.declared.lists.CodesOf.{CodesOf};
ghost use Rattle.shares.specs.declared.lists.SharesOf.{SharesOf};
ghost use Rattle.hub_machine.specs.State.{Hub, Lives};
ghost use Rattle.hub_machine.specs.Replies.{Answer, outcome_of};
ghost use Rattle.hub_machine.specs.declared.call.Asked.{Asked};
ghost use Rattle.hub_machine.specs.declared.change.Change.{Change};
ghost use Rattle.hub_core.specs.History.{Answers, state_after};
ghost use Rattle.hub_core.specs.Needs.{has_sharer};
ghost use Rattle.isolation.specs.Sight.{May, AsksUser, ReadsShares, ReadsCodes, SeesSame, server_seen, token_seen, code_seen};
ghost use Rattle.isolation.specs.Sight.{with_users, with_servers, with_tokens, with_shares, with_codes, OtherRows, with_others};
ghost use Rattle.isolation.specs.Isolation.{is_get, Finds, apart};

/// In two states in which a token sees the same, a GET that brings it gets the same reply at the same moment, apart from the
/// revision. It does nothing: its contract is the law.
pub fn a_token_sees_its_part()
    ensures { (s t : Hub) (now : ℕ) (draw draw' : Option (List ℕ)) (asked : Asked) (k : Token) (r r' : Answer) (length length' : ℕ)
        → IsTrue (is_get asked.call) → Finds s asked k → Finds t asked k → SeesSame k s t → Answers s now draw asked r
        → Answers t now draw' asked r'
        → apart (outcome_of length r) ≡ apart (outcome_of length' r') }
{}

/// A token sees the same once the rows of users of which it may not ask are put, changed or removed: those are the users that
/// it may neither list nor name, and that don't own it. Of a user whose tokens it may read, it sees whether the user is there, and
/// of a user or a server whose shares it may read, whether that one is there.
pub fn unseen_users_may_change()
    ensures { (s : Hub) (k : Token) (rows : FinMap name_cmp User) → ((u : List ℕ) → AsksUser s k u → get rows u ≡ get s.tables.users u)
        → ((u : List ℕ) → May s k ReadTokens (Ob.User u) → contains_key s.tables.users u ≡ contains_key rows u)
        → ((whose : SharesOf) → ReadsShares s k whose → has_sharer s.tables whose ≡ has_sharer (with_users s rows).tables whose)
        → SeesSame k s (with_users s rows) }
{}

/// A token sees the same once servers that it may not read are made, started, stopped or removed. A token that may read the
/// hub sees how many are live, and one that may read the shares of a server, whether the server is there.
pub fn unseen_servers_may_change()
    ensures { (s : Hub) (k : Token) (rows : FinMap key_cmp ServerRow) (lives : Lives)
        → ((q : ServerKey) → May s k ReadServers (Ob.Server q) → server_seen s q ≡ server_seen (with_servers s rows lives) q)
        → (May s k ReadHub Ob.Hub → len s.lives ≡ len lives)
        → ((whose : SharesOf) → ReadsShares s k whose → has_sharer s.tables whose ≡ has_sharer (with_servers s rows lives).tables whose)
        → SeesSame k s (with_servers s rows lives) }
{}

/// A token sees the same once tokens that it may not read are made, changed or deleted, and once those that it may read have other
/// hashes, or were issued for other servers.
pub fn unseen_tokens_may_change()
    ensures { (s : Hub) (k : Token) (rows : FinMap nat_cmp Token)
        → ((u : List ℕ) (id : ℕ) → May s k ReadTokens (Ob.User u) → token_seen s u id ≡ token_seen (with_tokens s rows) u id)
        → SeesSame k s (with_tokens s rows) }
{}

/// A token sees the same once shares that it may not read are made, changed or deleted. What its owner received stays, as the owner's
/// rights come from there.
pub fn unseen_shares_may_change()
    ensures { (s : Hub) (k : Token) (rows : FinMap share_cmp Share)
        → shares_received s.tables k.owner ≡ shares_received (with_shares s rows).tables k.owner
        → ((whose : SharesOf) (q : ShareKey) → ReadsShares s k whose → is_share_of whose q ≡ true → get s.tables.shares q ≡ get rows q)
        → SeesSame k s (with_shares s rows) }
{}

/// A token sees the same once share codes that it may not read are made or deleted, and once those that it may read have other
/// hashes.
pub fn unseen_codes_may_change()
    ensures { (s : Hub) (k : Token) (rows : FinMap nat_cmp ShareCode)
        → ((whose : CodesOf) (id : ℕ) → ReadsCodes s k whose → code_seen s whose id ≡ code_seen (with_codes s rows) whose id)
        → SeesSame k s (with_codes s rows) }
{}

/// A token sees nothing of leases, OAuth clients and codes, and next numbers.
pub fn other_rows_are_not_seen()
    ensures { (s : Hub) (k : Token) (rows : OtherRows) → SeesSame k s (with_others s rows) }
{}

/// Rows that stand under their own keys do so after each history, as the first law wants it of its two states.
pub fn rows_stay_own()
    ensures { (h : List Change) (s : Hub) → AreOwn s.tables → AreOwn (state_after s h).tables }
{}
