//! Whether a kernel tells a literal on a box.

ghost use Rattle.std.specs.Prelude.{◌≡◌, ◌⊎◌, true, length};
ghost use Rattle.std.specs.Bool.{OnTrue};
ghost use Rattle.guarded_tell.specs.Words.{IsProperIn};
ghost use Rattle.guarded_tell.specs.Kernels.{vars_of, tells, IsKernel};
ghost use Rattle.guarded_tell.specs.Hearing.{HearsAll};
ghost use Rattle.literals.specs.Literals.{IsAsTight};
ghost use Rattle.reasons.specs.Reasons.{IsTold};

use guarded_tell::{Hear, Kernel, Tell, visit_tells};
use interval::BoxOf;
use literals::{is_as_tight, law_literals};

/// Listens for a tell that is as tight as a literal.
#[derive(Clone, Copy)]
struct Watch {
    sought: Tell,
    told: bool,
}

impl Hear for Watch {
    ghost can_hear = { λ w t. Unit {0} };

    ghost hears = { λ w t after. (after.sought ≡ w.sought) × (after.told ≡ true → (w.told ≡ true) ⊎ IsAsTight t w.sought) };

    fn hear(&mut self, t: Tell) {
        if is_as_tight(t, self.sought) {
            self.told = true;
        }
    }
}

/// Whether the kernel tells the literal on the box, or one as tight.
pub fn is_told(kernel: &Kernel, b: &BoxOf, sought: Tell) -> bool
    requires kernel { IsKernel (length b.now) kernel.now }
    requires proper { IsProperIn (vars_of kernel.now) b.now }
    ensures { OnTrue result (IsTold (tells kernel.now b.now) sought) }
{
    law_literals();
    let mut watch = Watch {
        sought,
        told: false,
    };
    visit_tells(kernel, b, &mut watch);
    watch.told
}

/// Whether some number is left in the box for each of the kernel's variables.
pub fn is_proper_in(kernel: &Kernel, b: &BoxOf) -> bool
    requires { IsKernel (length b.now) kernel.now }
    ensures { OnTrue result (IsProperIn (vars_of kernel.now) b.now) }
{
    for place in 0..kernel.var_count() {
        let v = kernel.var_at(place);
        if b.low(v) > b.high(v) {
            return false;
        }
    }
    true
}
