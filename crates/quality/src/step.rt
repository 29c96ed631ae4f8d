// The four steps of settling, in their order.
#[derive(Clone, Copy)]
pub enum Step {
    Range,
    Internal,
    Time,
    Fill,
}
