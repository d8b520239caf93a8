//! What holds of basic blocks, for the layers above.

ghost use Rattle.std.specs.Prelude.{◌≡◌, ◌↔◌, ◌<◌, ℕ, Bool, List, Option, map, get_or, length, nat_eq};
ghost use Rattle.control_flow.specs.Points.{Point};
ghost use Rattle.control_flow.specs.Routes.{IsLive, IsRoute, Taken, Way, place_of};
ghost use Rattle.control_flow.specs.Routes.Place.{At};
ghost use Rattle.graph_search.specs.Searches.{steps_to};
ghost use Rattle.graph_search.specs.Walks.{Reached};
ghost use Rattle.basic_blocks.specs.Blocks.{AreBlocks, AreVisits, Ascending, Chain, by_first, together};
ghost use Rattle.basic_blocks.specs.Chains.{AreChains, AreNumbered, AreOpposite, mapped};
ghost use Rattle.basic_blocks.specs.LivePoints.{AreRows, before};
ghost use Rattle.basic_blocks.specs.PointOrder.{Before};

/// A route from the first point out of the function is a list of visits of blocks, one after another; each visit passes
/// exactly the points of its block, and each but the last goes on to the first point of the next one's block.
pub fn routes_go_by_blocks()
    ensures { (ways : Point → List (Way Point)) (start : Point) (bs : List (Chain Point)) (xs : List (Taken Point))
        → AreBlocks ways start bs → IsRoute ways xs → place_of xs ≡ At start
        → (vs : List (List (Taken Point))) × AreVisits ways bs start vs × (together vs ≡ xs) }
{}

/// There is one way to cut the live points into blocks, in the order of their first points.
pub fn blocks_agree()
    ensures { (ways : Point → List (Way Point)) (start : Point) (bs cs : List (Chain Point)) → AreBlocks ways start bs
        → AreBlocks ways start cs → Ascending (by_first Before) bs → Ascending (by_first Before) cs → bs ≡ cs }
{}

/// Chains of numbers of points are the blocks of these points, in order.
pub fn chains_are_blocks()
    ensures { (ways : Point → List (Way Point)) (start : Point) (ps : List Point) (flag : ℕ → Bool)
        (only back : List (Option ℕ)) (bs : List (Chain ℕ)) → AreNumbered ways start Before ps flag only
        → AreOpposite only back → AreChains only flag bs
        → AreBlocks ways start (map (mapped (λ i. get_or ps i start)) bs)
        × Ascending (by_first Before) (map (mapped (λ i. get_or ps i start)) bs) }
{}

/// A search backwards from the number after the last point's reaches exactly the numbers of live points.
pub fn live_points_are_reached()
    ensures { (ways : Point → List (Way Point)) (start : Point) (ps : List Point) (rows : List (List ℕ))
        → AreRows ways start ps rows → (i : ℕ) → i < length ps
        → IsLive ways start (get_or ps i start) ↔ Reached (steps_to nat_eq (before rows)) (length ps) i }
{}
