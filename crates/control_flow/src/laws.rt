//! What holds of the ways between points, for the layers above.

ghost use Rattle.std.specs.Prelude.{◌≡◌, ◌↔◌, ℕ, List, [], None};
ghost use Rattle.elf32_image.specs.Parts.{ImageValue};
ghost use Rattle.control_flow.specs.Controls.{calls, control_of, fault_by, ways_by};
ghost use Rattle.control_flow.specs.Points.{Point, entry_point};
ghost use Rattle.control_flow.specs.Routes.{IsHistory, Taken};
ghost use Rattle.control_flow.specs.Ways.{IsCollected, fault_at, ways_from};

/// From a point no way leads exactly where it has a fault.
pub fn faults_have_no_way()
    ensures none { (image : ImageValue) (entry : ℕ) (p : Point) → ways_from image entry p ≡ []
        → fault_at image entry p ≡ None → ⊥ }
    ensures some { (image : ImageValue) (entry : ℕ) (p : Point) → (fault_at image entry p ≡ None → ⊥)
        → ways_from image entry p ≡ [] }
{}

/// Control reaches a point exactly where the point has a history.
pub fn collected_points_have_histories()
    ensures { (image : ImageValue) (entry : ℕ) (p : Point) → IsCollected image entry p
        ↔ ((h : List (Taken Point)) × IsHistory (ways_from image entry) (entry_point entry) h p) }
{}

/// The ways from a point, and its fault, follow from the control of its instruction and the calls that are open.
pub fn controls_give_ways_and_faults()
    ensures ways { (image : ImageValue) (entry : ℕ) (p : Point)
        → ways_by (calls image) entry p.returns (control_of image p.address) ≡ ways_from image entry p }
    ensures faults { (image : ImageValue) (entry : ℕ) (p : Point)
        → fault_by (calls image) entry p.returns (control_of image p.address) ≡ fault_at image entry p }
{}
