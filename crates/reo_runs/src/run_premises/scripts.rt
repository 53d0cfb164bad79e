//! Scripts fit their ports.
ghost use Rattle.reo_runs.specs.run_premises.Fitting.{ScriptsFit};

/// The actions of a script that is read for ports, written out, fit these ports: an item of the
/// port's type is written where items go in, one is taken where they go out, and no two components
/// name one port.
pub fn scripts_fit()
    ensures { ScriptsFit }
{}
