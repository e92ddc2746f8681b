ghost use Rattle.mb_asm.specs.Orders.{AssembledHaveNoFault, FaultsAreInOrder};

use asm_reading::{items_are_in_order, lines_have_a_least};
use asm_source::{first_is_least, parts_may_stop};

/// The fault that `assemble` tells is the first of all that a source has: of those of its lines the least by line, column and
/// number; where no line has one, the least of those of its layout.
pub fn faults_are_in_order()
    ensures order { FaultsAreInOrder }
    ensures none { AssembledHaveNoFault }
{
    first_is_least();
    lines_have_a_least();
    items_are_in_order();
    parts_may_stop();
}
