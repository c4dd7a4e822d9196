//! What the definitions of a geometry mean, as laws.

ghost use Rattle.std.specs.Prelude.{◌≡◌, ℕ, ◌<◌, ◌≤◌, ◌↔◌, Some, List, length, Contains};
ghost use Rattle.std.specs.List.{All};
ghost use Rattle.units.specs.declared.Move.{Move};
ghost use Rattle.units.specs.declared.Limits.{Limits};
ghost use Rattle.line_geom.specs.Geometry.{least, geom_of, IsGeom, IsGeomOf, IsBounded};
ghost use Rattle.line_geom.specs.declared.Geom.{Geom};

/// The least of some numbers is one of them, and none is less.
pub fn least_is_least()
    ensures among { (xs : List ℕ) → 0 < length xs → Contains xs (least xs) }
    ensures below { (xs : List ℕ) → All (λ x. least xs ≤ x) xs }
{}

/// A move under limits has at most one geometry, which is given field by field.
pub fn one_geometry()
    ensures { (mv : Move) (l : Limits) (g : Geom) → (geom_of mv l ≡ Some g) ↔ IsGeom mv l g }
{}

/// The geometry of a move under limits in range keeps the bounds of its fields.
pub fn bounds()
    ensures { (mv : Move) (g : Geom) → IsGeomOf mv g → IsBounded g }
{}
