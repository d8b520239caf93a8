use arm_cpu::Stop;

/// Why a step gives no state.
#[derive(Clone, Copy, Debug)]
pub enum StepEnd {
    /// There was no memory for what the step writes.
    Memory,
    /// The machine stops.
    Stop(Stop),
}
