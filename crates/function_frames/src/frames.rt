//! The facts of a function's points.

ghost use Rattle.std.specs.Prelude.{◌≡◌, ℕ, ◌<◌, ◌^◌, Some, slice_get, length, IfErr, IfOk, OnOk};
ghost use Rattle.copy_facts.specs.Frames.{AreFramePoints, AreFrames, IsRefusedFrame, NoneLost, NoneOver, NoneUnproved};
ghost use Rattle.flow_graph.specs.Tables.{IsFunctionGraph, points_of};
ghost use Rattle.function_frames.specs.Points.{AreFunctionFrames};
ghost use Rattle.path_facts.specs.Histories.{IsFollowed};

use crate::points::sites_of;
use copy_facts::{FrameRefusal, PointFacts, Site, frames};
use elf32_image::Image;
use flow_graph::FunctionGraph;
use path_facts::followed_unless_returns_are_unproved;
use point_tables::number_of;
use std::alloc::{AllocError, Global};

/// What all paths say of the points of a function. A point has the number that it has in the function's graph.
#[derive(Drop)]
pub struct Frames {
    /// The number of the point where the function begins.
    pub start: u32,
    /// What is needed of each point.
    pub sites: Vec<Site>,
    /// What is known at each point.
    pub facts: Vec<Option<PointFacts>>,
}

/// The number of the point where a function begins.
fn start_of(image: &Image, function: &FunctionGraph) -> u32
    requires { IsFunctionGraph image.now function.now.graph.entry function.now }
    ensures { slice_get function.now.tables.points result ≡ Some (0, function.now.graph.entry) }
{
    match number_of(function.tables.points.as_slice(), 0, function.graph.entry) {
        Some(number) => number,
        None => 0,
    }
}

/// The points of a function with what is needed of them, by their numbers.
fn frame_points(
    alloc: Global,
    image: &Image,
    function: &FunctionGraph,
    start: u32,
) -> Result<Vec<Site>, AllocError>
    requires graph { IsFunctionGraph image.now function.now.graph.entry function.now }
    requires start { slice_get function.now.tables.points start ≡ Some (0, function.now.graph.entry) }
    ensures points { IfOk result (λ sites. AreFramePoints image.now function.now.graph.entry (points_of function.now)
        start sites.items) }
    ensures few { IfOk result (λ sites. length sites.items < 2 ^ 31) }
{
    sites_of(
        alloc,
        image,
        function.graph.contexts.as_slice(),
        function.tables.points.as_slice(),
        function.tables.targets.as_slice(),
    )
}

/// What all paths say of the points, or why the use of the stack can't be followed there.
fn facts_of(
    alloc: Global,
    image: &Image,
    function: &FunctionGraph,
    stack: u32,
    start: u32,
    sites: &[Site],
) -> Result<Vec<Option<PointFacts>>, FrameRefusal>
    requires small { stack < 2 ^ 31 }
    requires points { AreFramePoints image.now function.now.graph.entry (points_of function.now) start sites.now }
    requires few { length sites.now < 2 ^ 31 }
    ensures frames { IfOk result (λ facts. AreFrames stack start sites.now facts.items) }
    ensures lost { OnOk result (NoneLost image.now function.now.graph.entry stack) }
    ensures over { OnOk result (NoneOver image.now function.now.graph.entry stack) }
    ensures unproved { OnOk result (NoneUnproved image.now function.now.graph.entry stack) }
    ensures refused { IfErr result (IsRefusedFrame image.now function.now.graph.entry stack) }
{
    frames(alloc, stack, start, sites)
}

/// What all paths say of each point of a function, or why its use of the stack can't be followed. Where there is an
/// answer, each run of the function that returns is a route through its points.
///
/// # Errors
///
/// `Lost` with the address of an access by r13 at which r13 isn't known or isn't the same on all paths. Else `Over`,
/// where an access goes below the stack's bytes: the least such address, and there the least offset. Else `Unproved`
/// with the least address of a return that isn't shown to bring its own return address. `Memory` where memory was
/// refused.
pub fn function_frames(
    alloc: Global,
    image: &Image,
    function: &FunctionGraph,
    stack: u32,
) -> Result<Frames, FrameRefusal>
    requires small { stack < 2 ^ 31 }
    requires graph { IsFunctionGraph image.now function.now.graph.entry function.now }
    ensures frames { IfOk result (AreFunctionFrames image.now stack function.now) }
    ensures lost { OnOk result (NoneLost image.now function.now.graph.entry stack) }
    ensures over { OnOk result (NoneOver image.now function.now.graph.entry stack) }
    ensures unproved { OnOk result (NoneUnproved image.now function.now.graph.entry stack) }
    ensures followed { OnOk result (IsFollowed image.now function.now.graph.entry stack) }
    ensures refused { IfErr result (IsRefusedFrame image.now function.now.graph.entry stack) }
{
    let start = start_of(image, function);
    let sites = match frame_points(alloc, image, function, start) {
        Ok(sites) => sites,
        Err(_) => return Err(FrameRefusal::Memory),
    };
    let facts = facts_of(alloc, image, function, stack, start, sites.as_slice())?;
    followed_unless_returns_are_unproved();
    Ok(Frames {
        start,
        sites,
        facts,
    })
}
