//! The law that ties the faults of returns to the meaning of programs. It does nothing.

ghost use Rattle.frame_shapes.specs.Faults.{ReturnFaultIsThat};

/// In a stack of 65,536 cells a return faults as the meaning of programs says.
pub fn return_fault_is_that()
    ensures { ReturnFaultIsThat }
{}
