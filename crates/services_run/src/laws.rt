//! The law over all lists of visits, and over rounds one after another.
ghost use Rattle.services_run.specs.Law.{ServicesAreLawful, LivedAtFirst, RoundsFollow, ToldAreLawful};

/// At most one program of a service may run, a start comes only where none may, numbers rise, and each addition leads to the target of its
/// own service. Rounds follow one another, and it holds of all that devices tell that had told nothing before.
pub fn services_law()
    ensures lawful { ServicesAreLawful }
    ensures starts { LivedAtFirst }
    ensures follow { RoundsFollow }
    ensures told { ToldAreLawful }
{}
