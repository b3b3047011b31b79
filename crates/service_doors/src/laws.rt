//! The law of services from the first round to the end.
ghost use Rattle.service_doors.specs.Law.{AttendedAreLawful};

/// What `services_run::laws::services_law` says of rounds, for services that were tended by a listener and stopped at the end.
pub fn attended_law()
    ensures { AttendedAreLawful }
{}
