ghost use Rattle.record_walk.specs.OneProof.{SidesHaveOneProof};

/// That cells and rows of a root set are a side has one proof, so that a type may keep it.
pub fn sides_have_one_proof()
    ensures { SidesHaveOneProof }
{}
