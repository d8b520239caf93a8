//! Writes a report.

ghost use Rattle.std.specs.Prelude.{◌≡◌, ◌++◌, ◌∷◌, [], ◌<◌, ◌+◌, ◌^◌, OnOk, IfOk, length, string_bytes, map};
ghost use Rattle.report_lines.specs.declared.report.Line.TheVariants as line;
ghost use Rattle.report_lines.specs.Grammar.{block_lines, fact_lines, line_text, lines_text, loop_lines, text_of};
ghost use Rattle.whole_reports.specs.Reports.{is_well_formed};

use report_lines::{
    Fact, Proof, Report, ReportBlock, ReportLoop, ReportRow, push_atom, push_block, push_fact,
    push_formula_line, push_function, push_loop, push_param, push_proof, push_row, push_timing,
    push_tree_line, push_version,
};
use std::alloc::{AllocError, Global};
use wsym_terms::{Atom, ParamRange};

fn end_line(out: &mut String) -> Result<(), AllocError>
    ensures { OnOk result (string_bytes out.new ≡ string_bytes out.old ++ 10 ∷ []) }
{
    out.push_str("\n")
}

fn push_params(out: &mut String, params: &[ParamRange]) -> Result<(), AllocError>
    ensures { OnOk result (string_bytes out.new ≡ string_bytes out.old ++ lines_text [] (map line.Param params.now)) }
{
    for param in params {
        push_param(out, param)?;
        end_line(out)?;
    }
    Ok(())
}

/// Blocks are numbered from 0.
fn push_blocks(out: &mut String, blocks: &[ReportBlock]) -> Result<(), AllocError>
    ensures { OnOk result (string_bytes out.new ≡ string_bytes out.old ++ lines_text [] (block_lines 0 blocks.now)) }
{
    for (number, block) in blocks.iter().enumerate() {
        push_block(out, number as u64, block)?;
        end_line(out)?;
    }
    Ok(())
}

/// Loops are numbered from 1, and each is followed by its atoms.
fn push_loops(
    out: &mut String,
    params: &[ParamRange],
    loops: &[ReportLoop],
) -> Result<(), AllocError>
    ensures { OnOk result (string_bytes out.new ≡ string_bytes out.old ++ lines_text params.now (loop_lines 1 loops.now)) }
{
    for (place, each) in loops.iter().enumerate() {
        let atoms = each.bound.atoms.as_slice();
        push_loop(
            out,
            place as u64 + 1,
            each.header,
            each.depth,
            atoms.len() as u64,
        )?;
        end_line(out)?;
        push_atoms(out, params, atoms)?;
    }
    Ok(())
}

fn push_atoms(out: &mut String, params: &[ParamRange], atoms: &[Atom]) -> Result<(), AllocError>
    ensures { OnOk result (string_bytes out.new ≡ string_bytes out.old ++ lines_text params.now (map line.Atom atoms.now)) }
{
    for atom in atoms {
        push_atom(out, params, atom)?;
        end_line(out)?;
    }
    Ok(())
}

fn push_rows(out: &mut String, params: &[ParamRange], rows: &[ReportRow]) -> Result<(), AllocError>
    ensures { OnOk result (string_bytes out.new ≡ string_bytes out.old ++ lines_text params.now (map line.Row rows.now)) }
{
    for row in rows {
        push_row(out, params, row)?;
        end_line(out)?;
    }
    Ok(())
}

/// Facts are numbered from 0.
fn push_facts(out: &mut String, params: &[ParamRange], facts: &[Fact]) -> Result<(), AllocError>
    ensures { OnOk result (string_bytes out.new ≡ string_bytes out.old ++ lines_text params.now (fact_lines 0 facts.now)) }
{
    for (number, fact) in facts.iter().enumerate() {
        push_fact(out, params, number as u64, fact)?;
        end_line(out)?;
    }
    Ok(())
}

fn push_proofs(out: &mut String, proofs: &[Proof]) -> Result<(), AllocError>
    ensures { OnOk result (string_bytes out.new ≡ string_bytes out.old ++ lines_text [] (map line.Proof proofs.now)) }
{
    for proof in proofs {
        push_proof(out, proof)?;
        end_line(out)?;
    }
    Ok(())
}

/// The lines before those of the parameters.
fn push_head(out: &mut String, report: &Report) -> Result<(), AllocError>
    ensures { OnOk result (string_bytes out.new ≡ string_bytes out.old ++ lines_text [] (line.Version report.now.version ∷ line.Function report.now.entry report.now.stack ∷ line.Timing report.now.timing ∷ [])) }
{
    push_version(out, report.version)?;
    end_line(out)?;
    push_function(out, report.entry, report.stack)?;
    end_line(out)?;
    push_timing(out, &report.timing)?;
    end_line(out)?;
    Ok(())
}

/// The tree, the formula and the end.
fn push_tail(out: &mut String, report: &Report) -> Result<(), AllocError>
    ensures { OnOk result (string_bytes out.new ≡ string_bytes out.old ++ lines_text [] (line.Tree report.now.tree ∷ line.Formula report.now.formula ∷ line.End ∷ [])) }
{
    push_tree_line(out, &report.tree)?;
    end_line(out)?;
    push_formula_line(out, &report.formula)?;
    end_line(out)?;
    out.push_str("end\n")
}

/// The lines of the parameters, blocks, loops, rows, facts and proofs.
fn push_sections(out: &mut String, report: &Report) -> Result<(), AllocError>
    ensures { OnOk result (string_bytes out.new ≡ string_bytes out.old ++ (lines_text [] (map line.Param report.now.params) ++ (lines_text [] (block_lines 0 report.now.blocks) ++ (lines_text report.now.params (loop_lines 1 report.now.loops) ++ (lines_text report.now.params (map line.Row report.now.rows) ++ (lines_text report.now.params (fact_lines 0 report.now.facts) ++ lines_text [] (map line.Proof report.now.proofs))))))) }
{
    let params = report.params.as_slice();
    push_params(out, params)?;
    push_blocks(out, report.blocks.as_slice())?;
    push_loops(out, params, report.loops.as_slice())?;
    push_rows(out, params, report.rows.as_slice())?;
    push_facts(out, params, report.facts.as_slice())?;
    push_proofs(out, report.proofs.as_slice())
}

/// The text of a report, in ASCII, each line ended by a line feed.
pub fn write_report(alloc: Global, report: &Report) -> Result<Vec<u8>, AllocError>
    ensures { IfOk result (λ text. text.items ≡ text_of report.now) }
{
    let mut out = String::new(alloc);
    push_head(&mut out, report)?;
    push_sections(&mut out, report)?;
    push_tail(&mut out, report)?;
    Ok(out.into_bytes())
}
