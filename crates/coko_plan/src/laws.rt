//! What holds of plans. Each is a function that does nothing.

ghost use Rattle.coko_plan.specs.Compiling.{PlanOrFault};

/// Of a file whose blocks are as they were read, a chosen block has exactly one of a fault and a plan: the fault and the
/// listing are functions of the file, a plan is the listing, has no fault beside it, and stands for the whole of the
/// block.
pub fn a_block_has_one_plan_or_one_fault()
    ensures { PlanOrFault }
{}
