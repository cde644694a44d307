/// What is wrong with a command: the first of these that holds.
#[derive(Clone, Copy, Debug, PartialEq, Eq)]
pub enum Mistake {
    /// The machine isn't running, and the command isn't `start`.
    NotRunning,
    /// The machine is running, and the command is `start`.
    Running,
    /// An unknown word, or a wrong number of words.
    Usage,
    /// An address, a prefix or a group is malformed.
    Address,
    /// A name isn't that of an active interface.
    Interface,
    /// There is no rule of this key.
    NoRoute,
    /// There is no group of this key.
    NoGroup,
}
