// Laws of the reference. Each is the contract of a function that does nothing.
ghost use Rattle.reference.specs.Laws.{EachJobHasItsTexts};
ghost use Rattle.reference.specs.Searched.{WalksAreFound};

/// The search finds the chosen walk between two zones, from every start, exactly where there is a
/// walk: over every table of link times, and by whole trips over links that nobody leaves earlier
/// who enters later.
pub fn walks_are_found()
    ensures { WalksAreFound }
{}

/// Words and tables that come to no refusal have settings and a job that are accepted. Their texts
/// by the definitions as relations are watch lines by their rule and then those of the reference,
/// and no others. An audit has the verdict of the reference, and texts where that is yes. Whatever
/// routes and gaps are iterations by the relations, each is one, and its loading is sound.
pub fn each_job_has_its_texts()
    ensures { EachJobHasItsTexts }
{}
