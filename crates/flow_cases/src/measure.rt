//! The sizes of made bodies, and what is found there.
use crate::case_file::{BodyForm, file_of};
use crate::shapes::{Made, shape_of};
use anyhow::{Result, anyhow};
use kt_decl::classes;
use kt_flow::{flow, sizes};
use kt_graph::{GraphFault, graph, is_too_large};
use kt_init::{analyse, is_graph};
use kt_model::class_table::ClassTable;
use kt_model::finding::{Finding, PhaseFault};
use kt_model::uses::{Body, Owner, Uses};
use kt_scope::resolve;
use kt_tree::ast::File;
use std::alloc::Global;

/// What is measured of a body.
#[derive(Clone, Copy, Debug)]
struct Found {
    nodes: usize,
    edges: usize,
    variables: usize,
    dead: usize,
    findings: usize,
}

/// Makes a body and prints its size, or only makes it.
pub fn run(
    rt: &(impl Print + AllocGlobal),
    shape: &str,
    count: &str,
    only_makes: bool,
) -> Result<()> {
    let alloc = rt.alloc();
    let made = shape_of(alloc, shape, count.parse()?)?;
    if only_makes {
        let bytes = made.trees.len();
        let file = file_of(
            alloc,
            made.parameters.as_str(),
            BodyForm::Statements,
            made.trees.as_str(),
        )?;
        let functions = file.functions.len();
        println!(rt; "{shape} {count}: {bytes} bytes, {functions} functions")?;
        return Ok(());
    }
    let answer = size_of(alloc, &made)?;
    print!(rt; "{shape} {count}\n{answer}")?;
    Ok(())
}

/// The size of a made body, or that it is too large, and the limits that it passes.
pub fn size_of(alloc: Global, made: &Made) -> Result<String> {
    let file = file_of(
        alloc,
        made.parameters.as_str(),
        BodyForm::Statements,
        made.trees.as_str(),
    )?;
    let Ok(table) = classes(alloc, &file) else {
        return Err(anyhow!("no class table"));
    };
    let Ok(uses) = resolve(alloc, &file, &table) else {
        return Err(anyhow!("a name stands for nothing"));
    };
    let mut out = String::new(alloc);
    write_size(alloc, &mut out, &file, &table, &uses)?;
    write_passed(alloc, &mut out, &file, &table, &uses)?;
    Ok(out)
}

fn write_size(
    alloc: Global,
    out: &mut String,
    file: &File,
    table: &ClassTable,
    uses: &Uses,
) -> Result<()> {
    let body = Body {
        file,
        table,
        uses,
        owner: Owner::Function(0),
    };
    match found_in(alloc, &body)? {
        Some(found) => {
            let nodes = found.nodes;
            let edges = found.edges;
            let variables = found.variables;
            let dead = found.dead;
            let findings = found.findings;
            write!(out, "  nodes {nodes}, edges {edges}, variables {variables}")?;
            writeln!(out, ", dead {dead}, findings {findings}")?;
        }
        None => out.push_str("  too large\n")?,
    }
    Ok(())
}

/// What is found in a body, `None` where it is too large.
fn found_in(alloc: Global, body: &Body<'_>) -> Result<Option<Found>> {
    if is_too_large(body) {
        return match graph(alloc, body) {
            Err(GraphFault::TooLarge) => Ok(None),
            _ => Err(anyhow!("a graph that is too large")),
        };
    }
    let Ok(graph) = graph(alloc, body) else {
        return Err(anyhow!("no graph"));
    };
    if !is_graph(&graph) {
        return Err(anyhow!("a number is out of range"));
    }
    let init = analyse(alloc, &graph)?;
    let dead = init.dead(alloc, &graph, body)?;
    let findings = flow(alloc, body)?.findings;
    Ok(Some(Found {
        nodes: graph.nodes.len(),
        edges: graph.edges.len(),
        variables: graph.variables.len(),
        dead: dead.len(),
        findings: findings.len(),
    }))
}

/// Writes the limits that the bodies of a file pass, in one line.
fn write_passed(
    alloc: Global,
    out: &mut String,
    file: &File,
    table: &ClassTable,
    uses: &Uses,
) -> Result<()> {
    match sizes(alloc, file, table, uses) {
        Ok(()) => Ok(()),
        Err(PhaseFault::Findings(found)) => write_codes(out, found.as_slice()),
        Err(PhaseFault::NoMemory) => Err(anyhow!("no memory")),
    }
}

fn write_codes(out: &mut String, found: &[Finding]) -> Result<()> {
    for finding in found {
        let code = finding.rule.code();
        writeln!(out, "  {code}")?;
    }
    Ok(())
}
