// The two forms of the workload.
/// What the tasks of a workload compute with: shifts and exclusive or, or products and quotients.
#[derive(Clone, Copy, Debug, PartialEq, Eq)]
pub enum Form {
    Shifts,
    Products,
}
