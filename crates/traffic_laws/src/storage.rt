// Storage.
ghost use Rattle.traffic_laws.specs.Storage.{EntriesFollowTheWave, StorageHolds};

/// With a spatial queue and with Newell's no link holds more vehicles than its storage.
pub fn links_hold_no_more_than_their_storage()
    ensures { StorageHolds }
{}

/// With Newell's queue no more vehicles enter a link before a step than left it a wave's time
/// before, and its storage.
pub fn entries_follow_the_wave()
    ensures { EntriesFollowTheWave }
{}
