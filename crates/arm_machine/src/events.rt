use arm_isa::Class;

/// What can be seen of a step.
#[derive(Clone, Copy, Debug)]
pub struct Event {
    /// The address of the instruction.
    pub address: u32,
    /// Whether its condition passed, so that it was done.
    pub done: bool,
    /// Its class, also where it was skipped.
    pub class: Class,
    /// Whether its line wasn't in the instruction cache.
    pub miss: bool,
    /// What the step cost, in cycles.
    pub cycles: u64,
}
