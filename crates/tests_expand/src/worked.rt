//! What the definitions give for bodies that are worked by hand, as trees and as body lines.

ghost use Rattle.std.specs.Prelude.{◌≡◌, pos, Some};
ghost use Rattle.tests_expand.specs.Worked.{Place, heat, heat_by_lines, state_after, state_after_lines};

/// Below 19 it is turned on, above 22 it is turned off, and between it stays as it was.
pub fn a_thermostat_has_the_worked_rows()
    ensures tree { (p : Place) → (heat p (pos 0) (pos 18) ≡ Some (pos 1)) × (heat p (pos 1) (pos 20) ≡ Some (pos 1))
        × (heat p (pos 1) (pos 23) ≡ Some (pos 0)) × (heat p (pos 0) (pos 22) ≡ Some (pos 0)) }
    ensures lines { (p : Place) → (heat_by_lines p (pos 0) (pos 18) ≡ Some (pos 1))
        × (heat_by_lines p (pos 1) (pos 20) ≡ Some (pos 1)) × (heat_by_lines p (pos 1) (pos 23) ≡ Some (pos 0))
        × (heat_by_lines p (pos 0) (pos 22) ≡ Some (pos 0)) }
{}

/// 3 and 5 become 5 and 8.
pub fn a_local_name_keeps_the_value_that_it_had()
    ensures tree { (p : Place) → (state_after p 0 ≡ Some (pos 5)) × (state_after p 1 ≡ Some (pos 8)) }
    ensures lines { (p : Place) → (state_after_lines p 0 ≡ Some (pos 5)) × (state_after_lines p 1 ≡ Some (pos 8)) }
{}
