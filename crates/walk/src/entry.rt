// The entries of a path.

// A node that a pass has entered and not left, with the position of its child that was entered last, or 0: positions
// count from 1, and paths compare it with them, so an Option would be no plainer.
#[derive(Clone, Copy, PartialEq, Eq, Debug)]
pub struct Entry {
    pub node: u16,
    pub last: u8,
}
