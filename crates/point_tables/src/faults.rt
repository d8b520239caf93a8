//! The least fault of a function's points.

ghost use Rattle.std.specs.Prelude.{◌≡◌, ℕ, ◌<◌, List, [], ◌∷◌, ◌++◌, Option, Contains, length};
ghost use Rattle.control_flow.specs.declared.control.Fault.{Fault as FaultValue};
ghost use Rattle.control_flow.specs.Points.{Point};
ghost use Rattle.control_flow.specs.Ways.{fault_at};
ghost use Rattle.function_points.specs.PointLists.{point_at, points_at};
ghost use Rattle.point_tables.specs.Faults.{comes_first, fault_number, IsLeastOf};

use control_flow::{Control, Fault, control_at};
use elf32_image::Image;
use function_points::{Contexts, is_recursive};

/// The fault of a point.
pub fn fault_of_point(
    image: &Image,
    contexts: &Contexts,
    entry: u32,
    context: u32,
    address: u32,
) -> Option<Fault>
    requires { context < length contexts.now }
    ensures { result ≡ fault_at image.now entry (point_at contexts.now (context, address)) }
{
    match control_at(image, address) {
        Control::Go { .. } => None,
        Control::Call { target, .. } => {
            if is_recursive(image, contexts, entry, context, target) {
                Some(Fault::Recursive)
            } else {
                None
            }
        }
        Control::Return { .. } => None,
        Control::Fault { fault } => Some(fault),
    }
}

/// A fault and its address.
#[derive(Clone, Copy)]
pub struct FoundFault {
    pub fault: Fault,
    pub address: u32,
}

/// The place of a fault's kind among the kinds.
pub fn kind_number(fault: Fault) -> u8
    ensures { result ≡ fault_number fault }
{
    match fault {
        Fault::Unknown => 0,
        Fault::Outside => 1,
        Fault::Indirect => 2,
        Fault::Recursive => 3,
    }
}

/// Whether a fault comes before what was found.
pub fn is_before(found: Option<FoundFault>, fault: Fault, address: u32) -> bool
    ensures { result ≡ comes_first found fault address }
{
    match found {
        Some(least) => {
            if kind_number(fault) == kind_number(least.fault) {
                address < least.address
            } else {
                kind_number(fault) < kind_number(least.fault)
            }
        }
        None => true,
    }
}

/// The least of what was found and a point's fault.
pub fn with_fault(
    found: Option<FoundFault>,
    fault: Option<Fault>,
    address: u32,
) -> Option<FoundFault>
    ensures { (faults : Point → Option FaultValue) (ps : List Point) (p : Point) → faults p ≡ fault
        → p.address ≡ address → IsLeastOf faults ps found → IsLeastOf faults (ps ++ p ∷ []) result }
{
    match fault {
        Some(fault) => {
            if is_before(found, fault, address) {
                Some(FoundFault { fault, address })
            } else {
                found
            }
        }
        None => found,
    }
}

/// The least fault of the points.
pub fn first_fault(
    image: &Image,
    contexts: &Contexts,
    entry: u32,
    points: &[(u32, u32)],
) -> Option<FoundFault>
    requires { (n : ℕ × ℕ) → Contains points.now n → n.0 < length contexts.now }
    ensures { IsLeastOf (fault_at image.now entry) (points_at contexts.now points.now) result }
{
    let mut found: Option<FoundFault> = None;
    for point in points {
        let fault = fault_of_point(image, contexts, entry, point.0, point.1);
        found = with_fault(found, fault, point.1);
    }
    found
}
