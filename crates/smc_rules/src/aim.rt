/// Whether vifs and routes are to be made, or to go.
#[derive(Clone, Copy, Debug, PartialEq, Eq)]
pub enum Aim {
    Add,
    Delete,
}
