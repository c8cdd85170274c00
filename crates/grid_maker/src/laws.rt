// The law of all grids. It is the contract of a function that does nothing.
ghost use Rattle.grid_maker.specs.GridsAreAccepted.{GridsAreAccepted};

/// By the definitions of the table readers no table of a grid has a fault, where lengths are in
/// metres.
pub fn grids_are_accepted()
    ensures { GridsAreAccepted }
{}
