//! Keys of tables.
ghost use Rattle.std.specs.Prelude.{◌≡◌, ℕ};
ghost use Rattle.std.specs.FinMap.{nat_cmp-IsAntisymmetric, slice_cmp-IsAntisymmetric};
ghost use Rattle.std.specs.declared.cmp.Ordering.TheVariants.{Equal};
ghost use Rattle.hub_kit.specs.KeyOrder.{key_exact};

use crate::names::{GroupName, RoleName, ServerKey, ServerName, ServiceName, UserName};
use crate::short_text::ShortText;
use crate::target::Target;
use crate::text::Text;

/// A type of keys, each of which its order tells from every other.
pub trait Key: Ord + Drop {
    ghost exact: { (x y : Self) → Self.Ord.cmp x y ≡ Equal → x ≡ y };
}

impl Key for u64 {
    ghost exact = { nat_cmp-IsAntisymmetric };
}

impl Key for ShortText {
    ghost exact = { slice_cmp-IsAntisymmetric nat_cmp-IsAntisymmetric };
}

impl Key for UserName {
    ghost exact = { slice_cmp-IsAntisymmetric nat_cmp-IsAntisymmetric };
}

impl Key for GroupName {
    ghost exact = { slice_cmp-IsAntisymmetric nat_cmp-IsAntisymmetric };
}

impl Key for ServiceName {
    ghost exact = { slice_cmp-IsAntisymmetric nat_cmp-IsAntisymmetric };
}

impl Key for RoleName {
    ghost exact = { slice_cmp-IsAntisymmetric nat_cmp-IsAntisymmetric };
}

impl Key for ServerName {
    ghost exact = { slice_cmp-IsAntisymmetric nat_cmp-IsAntisymmetric };
}

impl Key for ServerKey {
    ghost exact = { key_exact };
}

impl Key for Text {
    ghost exact = { slice_cmp-IsAntisymmetric nat_cmp-IsAntisymmetric };
}

impl Key for Target {
    ghost exact = { slice_cmp-IsAntisymmetric nat_cmp-IsAntisymmetric };
}
