/// What each part of a mix enters once before it adds. A test may let parts wait for one another here.
pub trait Gate {
    fn enter(&self);
}

/// The gate that is always open.
#[derive(Clone, Copy, Debug)]
pub struct Open;

impl Gate for Open {
    fn enter(&self) {}
}
