//! What holds of the graphs of functions, for the layers above.

ghost use Rattle.std.specs.Prelude.{◌≡◌, ◌<◌, ℕ, List};
ghost use Rattle.elf32_image.specs.Parts.{ImageValue};
ghost use Rattle.graph_search.specs.Flows.{IsBounded, edge, leads};
ghost use Rattle.graph_search.specs.Walks.{Reached};
ghost use Rattle.control_flow.specs.Points.{Point, entry_point};
ghost use Rattle.control_flow.specs.Routes.{IsRoute, Taken, place_of};
ghost use Rattle.control_flow.specs.Routes.Place.{At};
ghost use Rattle.control_flow.specs.Ways.{ways_from};
ghost use Rattle.basic_blocks.specs.Blocks.{together};
ghost use Rattle.flow_graph.specs.declared.graph.BlockGraph.{BlockGraph as BlockGraphValue};
ghost use Rattle.flow_graph.specs.declared.graph.GraphRefusal.{GraphRefusal as RefusalValue};
ghost use Rattle.flow_graph.specs.declared.graph.GraphRefusal.TheVariants as why;
ghost use Rattle.flow_graph.specs.Flow.{flow_in};
ghost use Rattle.flow_graph.specs.Graphs.{IsGraphOf, IsRefusedGraph};
ghost use Rattle.flow_graph.specs.Visits.{AreBlockVisits};

/// A function has one graph, or one refusal, but for want of memory.
pub fn graphs_agree()
    ensures one { (image : ImageValue) (entry : ℕ) (g h : BlockGraphValue) → IsGraphOf image entry g
        → IsGraphOf image entry h → g ≡ h }
    ensures none { (image : ImageValue) (entry : ℕ) (g : BlockGraphValue) (r : RefusalValue) → IsGraphOf image entry g
        → IsRefusedGraph image entry r → r ≡ why.Memory }
    ensures refusal { (image : ImageValue) (entry : ℕ) (r s : RefusalValue) → IsRefusedGraph image entry r
        → IsRefusedGraph image entry s → (r ≡ why.Memory → ⊥) → (s ≡ why.Memory → ⊥) → r ≡ s }
{}

/// The graph of a function is a flow graph each block of which is reached from the entry's.
pub fn graphs_are_flows()
    ensures bounded { (image : ImageValue) (entry : ℕ) (g : BlockGraphValue) → IsGraphOf image entry g
        → IsBounded (flow_in g) }
    ensures reached { (image : ImageValue) (entry : ℕ) (g : BlockGraphValue) → IsGraphOf image entry g → (b : ℕ)
        → b < (flow_in g).count → Reached (leads (edge (flow_in g))) (flow_in g).entry b }
{}

/// A route from the entry out of the function is a list of visits of blocks, one after another along edges: from the
/// entry's block to one that returns, and each visit passes exactly the points of its block.
pub fn routes_visit_blocks()
    ensures { (image : ImageValue) (entry : ℕ) (g : BlockGraphValue) (xs : List (Taken Point)) → IsGraphOf image entry g
        → IsRoute (ways_from image entry) xs → place_of xs ≡ At (entry_point entry)
        → (vs : List (List (Taken Point))) × AreBlockVisits g g.entry_block vs × (together vs ≡ xs) }
{}
