//! The pointers of a feature to other features (FFPT, S-57 Part 3, 7.6.6).

use crate::naming::Naming;
use near_records::Near;
use s57_types::Partner;

impl Naming for Partner {
    ghost use Rattle.std.specs.Prelude.{◌==◌, length};
    ghost use Rattle.cell_spec.specs.declared.key.Key.TheVariants.{Foid as KeyFoid};
    ghost use Rattle.cell_spec.specs.Lookup.{lookup_identity};

    ghost key = { λ partner. KeyFoid partner.to };

    ghost is_dangling = { λ c partner. length (lookup_identity c partner.to) == 0 };

    fn dangles<N: Near>(&self, near: &N) -> bool {
        !near.is_borne(self.to)
    }
}
