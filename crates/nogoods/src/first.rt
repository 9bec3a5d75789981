//! The first nogood of a box that failed.

ghost use Rattle.std.specs.Prelude.{List, length, OnOk};
ghost use Rattle.std.specs.List.{All};
ghost use Rattle.guarded_tell.specs.declared.kernel.Kernel.{Kernel};
ghost use Rattle.literals.specs.Literals as words;
ghost use Rattle.literals.specs.Literals.{IsPlaced};
ghost use Rattle.nogoods.specs.Nogoods.{IsNogood};

use crate::bounds_met::{meet_others, meet_unless};
use guarded_tell::Tell;
use interval::BoxOf;
use literals::{Literals, opposite};
use memory::NoMemory;

/// A literal and its opposite, but for what the whole space meets: no solution of any kernels meets both. Errors: memory.
pub fn begin(t: Tell, space: &BoxOf, literals: &mut Literals) -> Result<(), NoMemory>
    requires placed { IsPlaced (length space.now) t }
    requires opposite { IsPlaced (length space.now) (words.opposite t) }
    ensures nogood { OnOk result ((kernels : List Kernel) → IsNogood kernels space.now literals.new) }
    ensures placed { OnOk result (All (IsPlaced (length space.now)) literals.new) }
{
    literals.clear();
    meet_unless(t, space, literals)?;
    meet_unless(opposite(t), space, literals)
}

/// The literals of a nogood, but for those that the whole space meets. Errors: memory.
pub fn begin_by(reason: &[Tell], space: &BoxOf, literals: &mut Literals) -> Result<(), NoMemory>
    requires { All (IsPlaced (length space.now)) reason.now }
    ensures nogood { OnOk result ((kernels : List Kernel) → IsNogood kernels space.now reason.now → IsNogood kernels space.now literals.new) }
    ensures placed { OnOk result (All (IsPlaced (length space.now)) literals.new) }
{
    literals.clear();
    meet_others(reason, reason.len(), space, literals)
}
