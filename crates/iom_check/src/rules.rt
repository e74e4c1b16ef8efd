/// How `check` reports what it finds.
#[derive(Clone, Copy)]
pub enum Style {
    /// Each line that fails, and how many passed and how many failed.
    Text,
    /// TAP 13: each test point, without the version before them and the plan.
    Tap,
    /// The `testcase` of JUnit's XML for each test point, without the elements around them.
    Junit,
}

/// What fails, and how it is reported.
#[derive(Clone, Copy)]
pub struct Rules {
    /// Whether a line fails also where an access of it is stale and its wish doesn't end with `stale` or `unsettled`, or it ends with `stale`
    /// and none is.
    pub fails_if_stale: bool,
    /// Whether, where that fails, each place of both caches that is stale fails behind a line that carried out an IOFENCE.C too, and not only
    /// at the script's end. A page for which a line or a fence failed isn't reported again; the first 64 such pages are kept.
    pub looks_at_fences: bool,
    /// Whether a line fails also where an access of it isn't settled and its wish doesn't end with `unsettled`, or it ends so and each is; and at
    /// the script's end each request that is owed: that was made, and isn't settled then, unless something failed for its page before. A line `owed`
    /// that fails does so for the page of the first request that it names. An access is found unsettled only if the debugger's account follows what
    /// an IOMMU may hold.
    pub fails_if_unsettled: bool,
    /// Whether what is noted fails: a comment that looks like a wish and is none, a wish on a line without an answer, a step that was refused
    /// on a line without a wish, a script without a wish.
    pub is_strict: bool,
    /// How it is reported.
    pub style: Style,
}

/// How many test points passed, and how many failed: at most 2^64 - 1.
#[derive(Clone, Copy)]
pub struct Tally {
    /// Those that passed.
    pub passed: u64,
    /// Those that failed.
    pub failed: u64,
}
