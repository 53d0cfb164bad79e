//! What an idle line means.
ghost use Rattle.reo_trace.specs.Idle.{IdleMeansNoFlow};

/// A law: in every circuit the line of a round is idle exactly where no end of any primitive flows.
pub fn idle_means_no_flow()
    ensures { IdleMeansNoFlow }
{}
