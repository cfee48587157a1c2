//! The ends of an edge (VRPT, S-57 Part 2, 2.2.1.2; Part 3, 7.7.1.4).

use crate::naming::Naming;
use near_records::Near;
use s57_types::{End, Kind, Rec};

impl Naming for End {
    ghost use Rattle.std.specs.Prelude.{is_some, not};
    ghost use Rattle.cell_spec.specs.declared.key.Key.TheVariants.{Name as KeyName};
    ghost use Rattle.rule_spec.specs.Records.{node_named};

    ghost key = { λ end. KeyName end.to };

    ghost is_dangling = { λ c end. not (is_some (node_named c end.to)) };

    fn dangles<N: Near>(&self, near: &N) -> bool {
        match near.record(self.to) {
            Some(Rec::V(node)) => node.name.kind != Kind::Vc,
            _ => true,
        }
    }
}
