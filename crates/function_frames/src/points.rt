//! The points of a graph as the merging of path facts takes them.

ghost use Rattle.std.specs.Prelude.{◌≡◌, ℕ, ◌<◌, ◌++◌, ◌∷◌, [], Contains, List, Option, None, get_or, length, IfOk, OnOk};
ghost use Rattle.control_flow.specs.Instructions.{instruction_at};
ghost use Rattle.control_flow.specs.Points.{last_return};
ghost use Rattle.copy_facts.specs.Frames.{IsSite};
ghost use Rattle.copy_facts.specs.declared.sites.Site.{Site as SiteValue};
ghost use Rattle.flow_graph.specs.Graphs.{returns_in};
ghost use Rattle.function_frames.specs.Points.{AreLists, AreSitesTo};
ghost use Rattle.function_points.specs.PointLists.{point_at};

use control_flow::fetch;
use copy_facts::Site;
use elf32_image::Image;
use flow_graph::Context;
use point_steps::literal_of;
use point_tables::Targets;
use std::alloc::{AllocError, Global};

/// The return address of the last call that is open in a context.
fn home_of(contexts: &[Context], context: u32) -> Option<u32>
    requires lists { AreLists contexts.now }
    requires there { context < length (returns_in contexts.now) }
    ensures { result ≡ last_return (get_or (returns_in contexts.now) context []) }
{
    if context == 0 {
        None
    } else {
        Some(contexts[context as usize].return_address)
    }
}

/// Adds a point with its instruction, its literal and its return address.
fn add_site(
    sites: &mut Vec<Site>,
    image: &Image,
    contexts: &[Context],
    point: (u32, u32),
    targets: Targets,
) -> Result<(), AllocError>
    requires lists { AreLists contexts.now }
    requires there { point.0 < length (returns_in contexts.now) }
    requires clear { instruction_at image.now point.1 ≡ None → ⊥ }
    ensures { OnOk result ((site : SiteValue) × IsSite image.now (point_at (returns_in contexts.now) point) site
        × (site.targets ≡ targets) × (sites.new.items ≡ sites.old.items ++ site ∷ [])) }
{
    let (context, address) = point;
    match fetch(image, address) {
        Ok(insn) => {
            let literal = literal_of(image, address, &insn);
            let home = home_of(contexts, context);
            sites.push(Site {
                address,
                insn,
                literal,
                home,
                targets,
            })?;
            Ok(())
        }
        Err(_) => Ok(()),
    }
}

/// All points, by their numbers.
pub fn sites_of(
    alloc: Global,
    image: &Image,
    contexts: &[Context],
    points: &[(u32, u32)],
    table: &[Targets],
) -> Result<Vec<Site>, AllocError>
    requires lists { AreLists contexts.now }
    requires under { (n : ℕ × ℕ) → Contains points.now n → n.0 < length (returns_in contexts.now) }
    requires clear { (n : ℕ × ℕ) → Contains points.now n → instruction_at image.now n.1 ≡ None → ⊥ }
    requires long { length table.now ≡ length points.now }
    ensures { IfOk result (λ sites. AreSitesTo image.now (returns_in contexts.now) points.now table.now
        (length points.now) sites.items) }
{
    let mut sites = Vec::new(alloc);
    let mut at = 0;
    while at < points.len() {
        add_site(&mut sites, image, contexts, points[at], table[at])?;
        at += 1;
    }
    Ok(sites)
}
