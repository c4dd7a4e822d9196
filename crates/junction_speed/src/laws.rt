//! What the rule for junctions means, as laws.

ghost use Rattle.std.specs.Prelude.{◌≡◌, ℕ, ◌*◌, ◌≤◌, min};
ghost use Rattle.units.specs.declared.Move.{Move};
ghost use Rattle.line_geom.specs.declared.Geom.{Geom};
ghost use Rattle.line_geom.specs.declared.Cap.TheVariants.{At};
ghost use Rattle.line_geom.specs.Geometry.{IsGeomOf};
ghost use Rattle.line_geom.specs.Junctions.{junction_of, squared_length, IsReversed};

/// Two moves have the same cap in either order.
pub fn same_in_either_order()
    ensures { (p n : Geom) (deviation : ℕ) → junction_of p n deviation ≡ junction_of n p deviation }
{}

/// The machine stops if the next move goes straight back, unless rounding made the direction too short.
pub fn stops_at_a_reversal()
    ensures { (p n : Geom) (deviation : ℕ) → IsReversed p n → 1000000000000 ≤ squared_length p → junction_of p n deviation ≡ At 0 }
{}

/// Rounding changes a direction so little that the machine nearly stops if a move is followed by one straight back: the
/// squared speed is at most a 500th of the acceleration times the deviation.
pub fn nearly_stops_at_every_reversal()
    ensures { (mv : Move) (p n : Geom) (deviation : ℕ) → IsGeomOf mv p → IsReversed p n →
        (cap : ℕ) × (junction_of p n deviation ≡ At cap) × (500 * cap ≤ min p.accel n.accel * deviation) }
{}
