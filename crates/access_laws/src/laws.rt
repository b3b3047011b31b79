//! The laws.
ghost use Rattle.access_laws.specs.Asks.{GetsRead, GetsAreTexts, AccessIsAsked, AccessIsText};
ghost use Rattle.access_laws.specs.Bodies as spec;

/// The body of a user's identity says of a server what the rights say of entering it.
pub fn a_users_body_says_access()
    ensures { spec.UsersBodySays }
{}

/// The same of a service's.
pub fn a_services_body_says_access()
    ensures { spec.ServicesBodySays }
{}

/// A body that is null says nothing.
pub fn a_null_says_nothing()
    ensures { spec.NothingSays }
{}

/// A GET of a target by a token is read as that alone, whatever is read of its bytes at once.
pub fn a_get_reads_so()
    ensures { GetsRead }
{}

/// Where it is no longer than a head may be, it is a text of that request.
pub fn a_short_get_is_its_text()
    ensures { GetsAreTexts }
{}

/// So is a guard's ask for a token that came in a head.
pub fn an_ask_for_access_reads_so()
    ensures { AccessIsAsked }
{}

/// And it is a text of that request, where the names and the token leave it no longer than a head may be.
pub fn a_short_ask_for_access_is_its_text()
    ensures { AccessIsText }
{}
