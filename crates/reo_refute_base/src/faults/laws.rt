//! A log has one answer, unless memory ends.
ghost use Rattle.reo_refute_base.specs.faults.Faults.{OneFault, ProofOrFault};

/// A log that is accepted has no fault.
pub fn proof_or_fault()
    ensures { ProofOrFault }
{}

/// A log has one fault at most.
pub fn one_fault()
    ensures { OneFault }
{}
