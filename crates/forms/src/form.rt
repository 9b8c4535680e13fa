//! A form of linkrun.

/// What a line of linkrun asks for.
// An enum of one case: a struct would be no plainer, and would say of a line that it can be nothing else.
#[derive(Clone, Copy)]
pub enum Form {
    /// The clock moves to a slot.
    Slot(u32),
}
