//! The shapes of all kernels, side by side.

ghost use Rattle.std.specs.Prelude.{All, IfOk};
ghost use Rattle.guarded_tell.specs.Kernels.{HasNumbers};
ghost use Rattle.kernel_visits.specs.Shapes.{AreShapesOf};
ghost use Rattle.moved_set.specs.Sets.{AreOwnShapes};

use guarded_tell::Kernel;
use kernel_visits::{Shape, shape_of};
use std::alloc::{AllocError, Global};

/// The shape of each of these kernels.
pub(crate) fn shapes_of(alloc: Global, kernels: &[Kernel]) -> Result<Vec<Shape>, AllocError>
    requires { All HasNumbers kernels.now }
    ensures shapes { IfOk result (λ shapes. AreShapesOf kernels.now shapes.items) }
    ensures own { IfOk result (λ shapes. AreOwnShapes kernels.now shapes.items) }
{
    let mut shapes = Vec::with_capacity(alloc, kernels.len())?;
    for j in 0..kernels.len() {
        shapes.push(shape_of(&kernels[j]))?;
    }
    Ok(shapes)
}
