//! What the contract of `run` comes to.
ghost use Rattle.std.specs.Prelude.{ℕ, Some, Option};
ghost use Rattle.hub_words.specs.declared.session.SessionWords.{SessionWords};
ghost use Rattle.hub_main.specs.Told.{FilesTold, Sides};
ghost use Rattle.hub_main.specs.Ends.{End};
ghost use Rattle.hub_main.specs.Sessions.{RunEnds};
ghost use Rattle.hub_main.specs.Good.{IsGood, IsGoodStatus, NoneRose};

use keeper::keeper::Keeper;

/// The words are a session's, what its file says is a configuration, its names are kept or configured, the rows read, and with what the
/// configuration adds they fit the pool and the limits; and no count of faults rose, over a store that tells its rows. Then the status is
/// 0, or 10 where the input ended inside a request, or 7 for want of memory.
pub fn a_good_session_is_served<K: Keeper>()
    ensures { (words : SessionWords) (files files' : FilesTold) (s s' : Sides) (k k' : K) (end : Option End) (status : ℕ)
        → IsGood K.rows K.Chooses words files k → K.Tells k' → NoneRose K.faults files files' s s' k k'
        → RunEnds K.Tells K.rows K.faults K.Chooses (Some words) files files' s s' k k' end status → IsGoodStatus status }
{}
