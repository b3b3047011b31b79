//! Servers that were made of kits, and the kits back.
ghost use Rattle.std.specs.Prelude.{◌≡◌, ◌≤◌, [], length, map, reverse};
ghost use Rattle.std.specs.Vec.{vec_capacity};

/// What was made of a kit.
pub trait Hired<K> {
    ghost kit_of: { Self → K };

    /// Gives the kit back.
    fn into_kit(self) -> K
        ensures { result ≡ kit_of self };
}

/// Puts the kit of each server back, the last server's first.
pub fn dismiss<K, S: Hired<K>>(mut servers: Vec<S>, kits: &mut Vec<K>)
    requires out { kits.old.items ≡ [] }
    requires room { length servers.items ≤ vec_capacity kits.old }
    ensures back { kits.new.items ≡ reverse (map (λ s. S.kit_of s) servers.items) }
{
    while let Some(server) = servers.pop() {
        match kits.push(server.into_kit()) {
            Ok(()) => {}
            Err(_full) => unreachable!(),
        }
    }
    servers.destroy_empty();
}
