use crate::numbers::Numbers;
use cost_multiset::Multi;

/// A node of a table: the variants of a term, whose members are numbers of earlier nodes.
#[derive(Drop, PartialEq, Eq, Hash)]
pub enum Node {
    /// The sum of the first costs of a list, one for each execution.
    Const(Multi),
    /// The sum of the members.
    Sum(Numbers),
    /// The greatest sum over all ways to share the executions out among the choices.
    Alt(Numbers),
    /// The body over all turns of loop `id` together: executions times the bound of the loop.
    Power { id: u32, body: u32 },
    /// The body over one execution, as often as there are executions.
    Once(u32),
    /// The body over the turns of one entry of loop `id`, as often as there are executions.
    Scaled { id: u32, body: u32 },
}
