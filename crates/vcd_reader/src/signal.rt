/// A signal of a recording: how many bits it has, and whether its values are left unread, as those of
/// reals and strings are.
#[derive(Clone, Copy)]
pub struct Signal {
    pub size: u32,
    pub unread: bool,
}

/// What a `$var` says before its reference.
#[derive(Clone, Copy)]
pub struct Declaration<'a> {
    pub unread: bool,
    pub size: u32,
    pub code: &'a [u8],
}
