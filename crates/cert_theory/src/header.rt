/// The most visits that a certificate is of.
pub const MOST_VISITS: u32 = 16;

/// The widest window of a certificate.
pub const MOST_WINDOW: u32 = 1_000;

/// The lines of a certificate of a window come in two versions. The second has lines of drops, and says how many lemmas
/// are live at once; the first is like a second one that says the greatest number and has no drops.
#[derive(Clone, Copy, Debug, PartialEq, Eq, Drop)]
pub enum Version {
    One,
    Two,
}

/// What the first line of a certificate names.
#[derive(Clone, Copy, Debug, PartialEq, Eq, Drop)]
pub enum Form {
    /// It has a window, and the logs of two formulas.
    Windowed(Version),
    /// It has clauses, and the logs of three formulas: the third version, with drops as in the second.
    Clausal,
}

/// The lines of a header that give a number.
#[derive(Clone, Copy, Debug, PartialEq, Eq, Drop)]
pub enum Field {
    /// The number of the assertion or of the cover, counted from 1.
    Assertion,
    /// How many visits the joint states count.
    Visits,
    /// How many joint states a path of the base has at most.
    Window,
    /// How many lemmas of a section are live at once, at most.
    Live,
}

/// The parts of a certificate that are logs of formulas: the first two where it has a window, the others where it has
/// clauses.
#[derive(Clone, Copy, Debug, PartialEq, Eq, Drop)]
pub enum Section {
    Base,
    Induction,
    Initial,
    Step,
    Bad,
}

/// What the header of a certificate says.
#[derive(Clone, Copy, Debug, PartialEq, Eq, Drop)]
pub struct Header {
    pub form: Form,
    /// How many visits the joint states count, at most `MOST_VISITS`.
    pub visits: u32,
    /// How many joint states a path of the base has at most, from 1 to `MOST_WINDOW`. A certificate of clauses does not
    /// say it: it is then 1, since its formulas look one state ahead, as those of that window do.
    pub window: u32,
    /// How many lemmas of a section may be live at once.
    pub live: u32,
}

/// Which certificate is asked for.
#[derive(Clone, Copy, Debug, PartialEq, Eq, Drop)]
pub struct Asked {
    /// The number of a directive, counted from 1.
    pub number: u32,
    /// Whether that directive claims something of each run: an assertion does, and a cover, that it is not met.
    pub has_claim: bool,
}
