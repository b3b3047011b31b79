//! What follows from the life table alone.
ghost use Rattle.std.specs.Prelude.{◌≡◌, ◌≢◌, ◌<◌, ◌≤◌, ◌+◌, ◌⊎◌, ℕ, List, length, true, false, not, Ok, Some};
ghost use Rattle.server_life.specs.declared.life.Life.{Life};
ghost use Rattle.server_life.specs.declared.life.LifeEvent.{LifeEvent};
ghost use Rattle.server_life.specs.declared.life.Todo.{Todo};
ghost use Rattle.server_life.specs.LifeTable.{life_after, generation_of};
ghost use Rattle.server_life.specs.Lives.{LeadsTo, Each, is_failure, is_begin, is_outcome, is_starting};
ghost use Rattle.server_life.specs.Owed.{owed};

use crate::life::{LifeEvent, Phase};

/// Laws of every life. It does nothing: its contract is the laws.
pub fn life_laws()
    // From every phase but Stopped some events, none of them a failure, lead to Stopped.
    ensures ends { (life : Life) → life.phase ≢ Phase.Stopped
        → (events : List (ℕ × LifeEvent)) × (later : Life) × Each (λ e. not (is_failure e)) events × LeadsTo life events later
        × (later.phase ≡ Phase.Stopped) }

    // A life that is asked to stop before it is ready never gets ready. A new one begins with Begin.
    ensures never_ready { (life later : Life) (events : List (ℕ × LifeEvent)) → life.stop_asked ≡ true
        → ((h : ℕ) → life.phase ≢ Phase.Ready h)
        → Each (λ e. not (is_begin e)) events → LeadsTo life events later → (h : ℕ) → later.phase ≢ Phase.Ready h }

    // What is owed covers all the outcomes that follow one another, and where no stop is asked some outcomes use it up.
    ensures covered { (life later : Life) (events : List (ℕ × LifeEvent)) → Each is_outcome events → LeadsTo life events later
        → length events + owed later.phase ≤ owed life.phase }
    ensures used_up { (life : Life) → life.stop_asked ≡ false → (events : List (ℕ × LifeEvent)) × (later : Life) × Each is_outcome events
        × LeadsTo life events later × (length events ≡ owed life.phase) }

    // Each outcome leaves less to come, and a wish to stop leaves it as it is while the life is starting.
    ensures falls { (life : Life) (g : ℕ) (event : LifeEvent) (made : Life × Todo) → is_outcome event ≡ true
        → life_after life g event ≡ Ok made → owed made.0.phase < owed life.phase }
    ensures stays { (life : Life) (g : ℕ) (made : Life × Todo) → is_starting life.phase ≡ true
        → life_after life g LifeEvent.AskStop ≡ Ok made → owed made.0.phase ≡ owed life.phase }

    // An outcome is of the phase's generation, and leaves that generation or none.
    ensures generation { (life : Life) (g : ℕ) (event : LifeEvent) (made : Life × Todo) → is_outcome event ≡ true
        → life_after life g event ≡ Ok made
        → (generation_of life.phase ≡ Some g) × ((generation_of made.0.phase ≡ Some g) ⊎ (made.0.phase ≡ Phase.Stopped)) }
{}
