// 64 masks in one array, so that all of them can be lent at once. The mask at place i of `ms` is `ms[i]`.
//
// none
#![tactic(auto)]

ghost use Rattle.masks.specs.Cells.{Room};

use mask::Mask;

pub type Masks = [Mask; 64];

// No mask is put yet.
pub fn none() -> Masks
    ensures { Room result }
{
    [mask::empty(); 64]
}
