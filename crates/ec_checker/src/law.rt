//! The law of the checker's faults.

ghost use Rattle.ec_checker.specs.Laws.{FaultsRefute};

/// Where a certificate has one of the faults, other than want of memory, its plan, value and tree are not all right.
/// So the checker says yes exactly where they are, as long as memory is given.
pub fn law_faults_refute()
    ensures { FaultsRefute }
{}
